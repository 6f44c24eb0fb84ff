// The listing program: a job on standard input, its answers, planes and dead end on standard output.
#![tactic(auto)]

use std::io;
use std::io::Read;

fn main(rt: HostRuntime) -> io::Result<()> {
    let mut input = Vec::new(rt.alloc());
    rt.reader()
        .take(listing_text::INPUT_ROOM as u64)
        .read_to_end(&mut input)?;
    let mut out = [0u8; listing_text::MAX_OUTPUT];
    let written = listing_text::list(&input, &mut out);
    rt.write_all(&out[..written])
}
