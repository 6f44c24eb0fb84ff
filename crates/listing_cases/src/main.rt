// The listing program's work on each of the files 00, 01, .. in turn, up to the first that is not there; data/INDEX says what each shows.
#![tactic(auto)]

use std::fs::File;
use std::io;
use std::io::Read;
use std::rt::Files;

// What the program prints for a file, under the file's name. False where there is no such file.
fn list_case(rt: &(impl Files + Print + Alloc), k: usize) -> io::Result<bool> {
    let name = format!(in rt.alloc(); "{k:02}")?;
    let Ok(file) = File::open(rt, name.as_str()) else {
        return Ok(false);
    };
    let mut input = Vec::new(rt.alloc());
    file.take(listing_text::INPUT_ROOM as u64)
        .read_to_end(&mut input)?;
    let mut out = [0u8; listing_text::MAX_OUTPUT];
    let written = listing_text::list(&input, &mut out);
    rt.write_all(b"case ")?;
    rt.write_all(name.as_bytes())?;
    rt.write_all(b"\n")?;
    rt.write_all(&out[..written])?;
    Ok(true)
}

fn main(rt: HostRuntime) -> io::Result<()> {
    for k in 0..100 {
        if !list_case(&rt, k)? {
            break;
        }
    }
    Ok(())
}
