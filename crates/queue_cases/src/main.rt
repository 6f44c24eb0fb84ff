// Document 01's bench case "queue entry 64 passes, 65 gives 10", and the queue's other rules, as the running code has them. Each entry
// bears its serial number as colour, so what is printed shows the order.
#![tactic(auto)]

ghost use Rattle.std.specs.Prelude.{◌≤◌};

use rules::{ForcedPipeline, ForcedPosition, ForcedPositions, World};
use std::io;

fn text(rt: &impl Print, words: &[u8]) -> io::Result<()> {
    rt.write_all(words)
}

fn digit(rt: &impl Print, d: usize) -> io::Result<()> {
    let byte = [b'0' + (d % 10) as u8];
    text(rt, &byte)
}

// A number below 100, as all numbers here are.
fn number(rt: &impl Print, n: usize) -> io::Result<()> {
    if 9 < n {
        digit(rt, n / 10)?;
    }
    digit(rt, n)
}

fn print_length(rt: &impl Print, queue: ForcedPipeline) -> io::Result<()> {
    match queue::len(queue) {
        Ok(n) => {
            text(rt, b", length ")?;
            number(rt, n)?;
        }
        Err(refusal) => {
            text(rt, b", length refused ")?;
            number(rt, refusal as usize)?;
        }
    }
    text(rt, b"\n")
}

fn print_empty(rt: &impl Print, queue: ForcedPipeline) -> io::Result<()> {
    match queue::is_empty(queue) {
        Ok(true) => text(rt, b"empty\n"),
        Ok(false) => text(rt, b"not empty\n"),
        Err(refusal) => {
            text(rt, b"empty refused ")?;
            number(rt, refusal as usize)?;
            text(rt, b"\n")
        }
    }
}

fn add(
    rt: &impl Print,
    queue: ForcedPipeline,
    positions: ForcedPositions,
) -> io::Result<ForcedPipeline> {
    let grown = queue::add_positions(queue, positions);
    text(rt, b"add ")?;
    match grown.answer {
        Ok(()) => number(rt, 0)?,
        Err(refusal) => number(rt, refusal as usize)?,
    }
    print_length(rt, grown.queue)?;
    Ok(grown.queue)
}

fn take(rt: &impl Print, queue: ForcedPipeline) -> io::Result<ForcedPipeline> {
    let taken = queue::take_next(queue);
    text(rt, b"take ")?;
    match taken.next {
        Ok(Some(position)) => number(rt, position.colour as usize)?,
        Ok(None) => text(rt, b"nothing")?,
        Err(refusal) => {
            text(rt, b"refused ")?;
            number(rt, refusal as usize)?;
        }
    }
    print_length(rt, taken.queue)?;
    Ok(taken.queue)
}

fn take_some(rt: &impl Print, queue: ForcedPipeline, times: usize) -> io::Result<ForcedPipeline> {
    let mut left = queue;
    for _ in 0..times {
        left = take(rt, left)?;
    }
    Ok(left)
}

// The position of a serial number: its place, eight to a row, and the number as its colour.
fn position(serial: u32) -> ForcedPosition {
    ForcedPosition {
        coordinates: World((serial / 8) as i32, (serial % 8) as i32),
        colour: serial,
    }
}

// The first `len` of the eight positions with the serial numbers from `first` on.
fn positions(first: u32, len: usize) -> ForcedPositions
    requires { first ≤ 1000 }
{
    let mut entries = [position(first); rules::ADDED_ROOM];
    for (entry, serial) in entries.iter_mut().zip(first..) {
        *entry = position(serial);
    }
    ForcedPositions { entries, len }
}

// A single position, at the place of one serial number and with another as its colour.
fn single(place: World, colour: u32) -> ForcedPositions {
    let one = ForcedPosition {
        coordinates: place,
        colour,
    };
    ForcedPositions {
        entries: [one; rules::ADDED_ROOM],
        len: 1,
    }
}

// A queue of which `len` entries wait, all of them at one place, as no call leaves it.
fn waiting(place: World, len: usize) -> ForcedPipeline {
    let one = ForcedPosition {
        coordinates: place,
        colour: 1,
    };
    ForcedPipeline {
        entries: [one; rules::QUEUE_ROOM],
        len,
    }
}

fn fill(rt: &impl Print) -> io::Result<ForcedPipeline> {
    let mut queue = queue::new();
    for k in 0..8 {
        queue = add(rt, queue, positions(8 * k, 8))?;
    }
    Ok(queue)
}

fn main(rt: HostRuntime) -> io::Result<()> {
    text(&rt, b"64 entries, then one too many\n")?;
    let full = fill(&rt)?;
    add(&rt, full, positions(64, 1))?;
    text(&rt, b"a place that is queued, with another colour\n")?;
    add(&rt, full, single(World(7, 7), 99))?;
    text(&rt, b"freed entries serve again\n")?;
    let freed = take_some(&rt, full, 3)?;
    let again = add(&rt, freed, positions(64, 3))?;
    add(&rt, again, positions(67, 1))?;
    text(&rt, b"first in, first out\n")?;
    let none = take_some(&rt, again, 64)?;
    print_empty(&rt, again)?;
    print_empty(&rt, none)?;
    take(&rt, none)?;
    text(&rt, b"the same place twice in one list\n")?;
    let twice = ForcedPositions {
        entries: [position(5); rules::ADDED_ROOM],
        len: 8,
    };
    add(&rt, none, twice)?;
    text(&rt, b"lengths and places out of bounds\n")?;
    add(&rt, none, positions(0, 9))?;
    add(&rt, none, single(World(1_000_001, 0), 1))?;
    add(&rt, none, single(World(0, -1_000_000), 1))?;
    take(&rt, waiting(World(0, 0), 65))?;
    print_empty(&rt, waiting(World(0, 0), 65))?;
    take(&rt, waiting(World(0, -1_000_001), 1))?;
    text(&rt, b"entries past the length are not read\n")?;
    take(&rt, waiting(World(0, -1_000_001), 0))?;
    Ok(())
}
