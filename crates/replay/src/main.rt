// The fixed list: a sample of the answers of the Rust that the port comes from, made by the driver in oracle/ (see its README): one file
// for the extraction of tiles, and one for each step on a board and each function of the desk. Each record's call is made again, and its
// answer and all that it may write are compared with the record.
#![tactic(auto)]

mod board_steps;
mod laying;
mod list;
mod tile_steps;

use list::Record;
use std::fs::File;
use std::io;
use std::io::Read;
use std::rt::Files;

const LONGEST_FILE: u64 = 24576;

const MOST_RECORDS: usize = 100;

// Replays the records one by one, a hundred at the most, up to the first that differs.
fn replay_all(rt: &impl Print, step: fn(&Record) -> bool, records: &[u8]) -> io::Result<()>
    requires { IsAlwaysCallable step }
{
    let mut same = 0u32;
    for line in records
        .split_inclusive(|byte| *byte == b'\n')
        .take(MOST_RECORDS)
    {
        if !step(&Record::of(line)) {
            return println!(rt; "record {same:02} differs");
        }
        same = same.saturating_add(1);
    }
    // Of a longer list it says nothing.
    if same as usize == MOST_RECORDS {
        return Ok(());
    }
    println!(rt; "{same:02} answers as recorded")
}

fn replay(
    rt: &(impl Files + Print + Alloc),
    name: &str,
    step: fn(&Record) -> bool,
) -> io::Result<()>
    requires { IsAlwaysCallable step }
{
    rt.write_all(name.as_bytes())?;
    rt.write_all(b": ")?;
    let Ok(file) = File::open(rt, name) else {
        return rt.write_all(b"no list\n");
    };
    let mut records = Vec::new(rt.alloc());
    file.take(LONGEST_FILE).read_to_end(&mut records)?;
    replay_all(rt, step, &records)
}

fn main(rt: HostRuntime) -> io::Result<()> {
    replay(&rt, "extract", tile_steps::extract)?;
    replay(&rt, "region-count", board_steps::region_count)?;
    replay(&rt, "scan", board_steps::scan)?;
    replay(&rt, "weights-up", board_steps::raise)?;
    replay(&rt, "weights-down", board_steps::lower)?;
    replay(&rt, "recount", board_steps::recount)?;
    replay(&rt, "fresh", board_steps::fresh)?;
    replay(&rt, "fitting-colours", laying::fitting_colours)?;
    replay(&rt, "lay", laying::lay)?;
    replay(&rt, "lift", laying::lift)
}
