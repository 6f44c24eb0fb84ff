// Document 01's bench cases of forced neighbours and of the dead end, with their edges and refusals, on the compiled code. "Chequer" is
// the two tiles of the listing program's sample.
#![tactic(auto)]

use rules::{BoundingBox, Cell, ForcedPosition, ForcedPositions, Offset, Refusal, World};
use std::io;

const CHEQUER: [u8; 18] = [1, 2, 1, 2, 1, 2, 1, 2, 1, 2, 1, 2, 1, 2, 1, 2, 1, 2];

fn text(rt: &impl Print, words: &[u8]) -> io::Result<()> {
    rt.write_all(words)
}

fn number(rt: &impl Print, n: usize) -> io::Result<()> {
    rt.print(n as u64)
}

fn word(rt: &impl Print, n: u32) -> io::Result<()> {
    number(rt, n as usize)
}

// A place by its cell where the offset is 0: no coordinate is negative here.
fn print_position(rt: &impl Print, position: ForcedPosition) -> io::Result<()> {
    let cell = places::cell_of(position.coordinates, Offset(0, 0));
    number(rt, cell.0)?;
    text(rt, b" ")?;
    number(rt, cell.1)?;
    text(rt, b" ")?;
    word(rt, position.colour)?;
    text(rt, b"\n")
}

// All eight entries, used or not.
fn print_positions(rt: &impl Print, found: ForcedPositions) -> io::Result<()> {
    for position in &found.entries {
        print_position(rt, *position)?;
    }
    Ok(())
}

// What is printed of a refused call: no position.
const NO_POSITIONS: ForcedPositions = ForcedPositions {
    entries: [ForcedPosition {
        coordinates: World(0, 0),
        colour: 0,
    }; rules::ADDED_ROOM],
    len: 0,
};

// The refusal's number, 0 where the call is accepted, and the positions.
fn print_forced(rt: &impl Print, answer: Result<ForcedPositions, Refusal>) -> io::Result<()> {
    let (refused, found) = match answer {
        Ok(found) => (0, found),
        Err(refusal) => (refusal as usize, NO_POSITIONS),
    };
    text(rt, b"refused ")?;
    number(rt, refused)?;
    text(rt, b", forced ")?;
    number(rt, found.len)?;
    text(rt, b"\n")?;
    print_positions(rt, found)
}

fn print_dead_end(
    rt: &impl Print,
    answer: Result<Option<Cell>, Refusal>,
    weights: &[u32; 9],
) -> io::Result<()> {
    match answer {
        Ok(Some(cell)) => print_cell(rt, cell, weights),
        Ok(None) => text(rt, b"dead end none\n"),
        Err(refusal) => {
            text(rt, b"refused ")?;
            number(rt, refusal as usize)?;
            text(rt, b"\n")
        }
    }
}

// The cell and its weight.
fn print_cell(rt: &impl Print, cell: Cell, weights: &[u32; 9]) -> io::Result<()> {
    text(rt, b"dead end ")?;
    number(rt, cell.0)?;
    text(rt, b" ")?;
    number(rt, cell.1)?;
    text(rt, b", weight ")?;
    if cell.0 < 3 && cell.1 < 3 {
        word(rt, weights[cell.0 * 3 + cell.1])?;
    }
    text(rt, b"\n")
}

fn round(
    rt: &impl Print,
    pieces: &[u32; 9],
    place: World,
    offset: Offset,
    bounds: Option<BoundingBox>,
) -> io::Result<()> {
    let answer = fit_forced::detect_forced_positions(
        pieces, 3, 3, &CHEQUER, 2, place, offset, bounds,
    );
    print_forced(rt, answer)
}

fn scan_of(rt: &impl Print, pieces: &[u32; 9], weights: &[u32; 9]) -> io::Result<()> {
    let answer = fit_scan::check_for_contradiction(pieces, weights, 3, 3, &CHEQUER, 2);
    print_dead_end(rt, answer, weights)
}

fn within(min: World, max: World) -> Option<BoundingBox> {
    Some(BoundingBox { min, max })
}

fn forced_cases(rt: &impl Print) -> io::Result<()> {
    let centre: [u32; 9] = [1, 1, 1, 1, 2, 1, 1, 1, 1];
    text(rt, b"1 laid at (1,1)\n")?;
    round(rt, &centre, World(1, 1), Offset(0, 0), None)?;
    text(rt, b"the same, seen from (0,0)\n")?;
    round(rt, &centre, World(0, 0), Offset(0, 0), None)?;
    text(rt, b"the same, on the wall at (10,20)\n")?;
    round(rt, &centre, World(11, 21), Offset(-10, -20), None)?;
    text(rt, b"nothing laid\n")?;
    let fresh: [u32; 9] = [1, 1, 1, 1, 1, 1, 1, 1, 1];
    round(rt, &fresh, World(1, 1), Offset(0, 0), None)
}

fn boxed_cases(rt: &impl Print) -> io::Result<()> {
    let centre: [u32; 9] = [1, 1, 1, 1, 2, 1, 1, 1, 1];
    text(rt, b"in the box (0,0) to (1,1)\n")?;
    round(
        rt,
        &centre,
        World(1, 1),
        Offset(0, 0),
        within(World(0, 0), World(1, 1)),
    )?;
    text(rt, b"in a box with min above max\n")?;
    round(
        rt,
        &centre,
        World(1, 1),
        Offset(0, 0),
        within(World(1, 1), World(0, 0)),
    )?;
    text(rt, b"a corner past the wall\n")?;
    round(
        rt,
        &centre,
        World(1, 1),
        Offset(0, 0),
        within(World(0, 0), World(1_000_001, 1)),
    )?;
    text(rt, b"a place off the board\n")?;
    round(rt, &centre, World(3, 1), Offset(0, 0), None)
}

fn scan_cases(rt: &impl Print) -> io::Result<()> {
    let pair: [u32; 9] = [2, 2, 1, 1, 1, 1, 1, 1, 1];
    let weights: [u32; 9] = [7, 7, 5, 7, 7, 5, 3, 3, 3];
    text(rt, b"1 laid at (0,0) and (0,1)\n")?;
    scan_of(rt, &pair, &weights)?;
    text(rt, b"the same with weight 2 at (0,2)\n")?;
    let two: [u32; 9] = [7, 7, 2, 7, 7, 5, 3, 3, 3];
    scan_of(rt, &pair, &two)?;
    text(rt, b"the same with weight 1 at (0,2)\n")?;
    let light: [u32; 9] = [7, 7, 1, 7, 7, 5, 3, 3, 3];
    scan_of(rt, &pair, &light)?;
    text(rt, b"weight above 1 at (2,2) alone\n")?;
    let last: [u32; 9] = [7, 7, 1, 1, 1, 1, 1, 1, 3];
    scan_of(rt, &pair, &last)?;
    text(rt, b"nothing laid\n")?;
    let fresh: [u32; 9] = [1, 1, 1, 1, 1, 1, 1, 1, 1];
    scan_of(rt, &fresh, &weights)?;
    text(rt, b"a weight above the limit\n")?;
    let heavy: [u32; 9] = [7, 7, 5, 7, 7, 5, 3, 3, 4_000_000_001];
    scan_of(rt, &pair, &heavy)?;
    text(rt, b"a piece that is no colour\n")?;
    let third: [u32; 9] = [2, 2, 1, 1, 1, 1, 1, 1, 4];
    scan_of(rt, &third, &weights)
}

fn main(rt: HostRuntime) -> io::Result<()> {
    forced_cases(&rt)?;
    boxed_cases(&rt)?;
    scan_cases(&rt)
}
