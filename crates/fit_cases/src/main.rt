// Document 01's bench cases of the listing and its bounds, as the running code has them. "Chequer" is the two tiles of the listing
// program's example.
#![tactic(auto)]

use rules::{Cell, Offset, Refusal, World};
use std::io;

const CHEQUER: [u8; 18] = [1, 2, 1, 2, 1, 2, 1, 2, 1, 2, 1, 2, 1, 2, 1, 2, 1, 2];

fn text(rt: &impl Print, words: &[u8]) -> io::Result<()> {
    rt.write_all(words)
}

fn refused(rt: &impl Print, refusal: Refusal) -> io::Result<()> {
    text(rt, b" refused ")?;
    rt.print(refusal as u64)?;
    text(rt, b"\n")
}

// The colours 1 and 2, if they are in the set; no case lists another.
fn colours(rt: &impl Print, bits: u32) -> io::Result<()> {
    text(rt, b" lists")?;
    if bits == 0 {
        text(rt, b" nothing")?;
    }
    if bits % 2 == 1 {
        text(rt, b" 1")?;
    }
    if bits / 2 % 2 == 1 {
        text(rt, b" 2")?;
    }
    if 3 < bits {
        text(rt, b" more")?;
    }
    text(rt, b"\n")
}

fn list(
    rt: &impl Print,
    pieces: &[u32],
    rows: usize,
    cols: usize,
    tiles: &[u8],
    count: u32,
    place: World,
) -> io::Result<()> {
    let answer = fit::compute_viable_tiles_at_position(
        pieces,
        rows,
        cols,
        tiles,
        count,
        place,
        Offset(0, 0),
    );
    match answer {
        Ok(set) => colours(rt, set.bits),
        Err(refusal) => refused(rt, refusal),
    }
}

fn count(
    rt: &impl Print,
    pieces: &[u32],
    rows: usize,
    cols: usize,
    tiles: &[u8],
    count: u32,
    start: Cell,
) -> io::Result<()> {
    let answer = fit::count_fitting(pieces, rows, cols, tiles, count, start);
    match answer {
        Ok(n) => {
            text(rt, b" fits ")?;
            rt.print(n as u64)?;
            text(rt, b"\n")
        }
        Err(refusal) => refused(rt, refusal),
    }
}

fn share(
    rt: &impl Print,
    counts: &[u32],
    rows: usize,
    cols: usize,
    tiles: usize,
    cell: Cell,
) -> io::Result<()> {
    let answer = fit::get_fraction(counts, rows, cols, tiles, cell);
    match answer {
        Ok(x) => {
            if x == 0.5 {
                text(rt, b" is a half\n")
            } else {
                text(rt, b" is another number\n")
            }
        }
        Err(refusal) => refused(rt, refusal),
    }
}

fn chequer(rt: &impl Print) -> io::Result<()> {
    let mut pieces = [1u32; 9];
    text(rt, b"chequer, fresh 3x3\n(0,0)")?;
    list(rt, &pieces, 3, 3, &CHEQUER, 2, World(0, 0))?;
    text(rt, b"region (0,0)")?;
    count(rt, &pieces, 3, 3, &CHEQUER, 2, Cell(0, 0))?;
    pieces[4] = 2;
    text(rt, b"1 laid at (1,1)\n(0,0)")?;
    list(rt, &pieces, 3, 3, &CHEQUER, 2, World(0, 0))?;
    text(rt, b"(0,1)")?;
    list(rt, &pieces, 3, 3, &CHEQUER, 2, World(0, 1))?;
    text(rt, b"(1,1)")?;
    list(rt, &pieces, 3, 3, &CHEQUER, 2, World(1, 1))?;
    text(rt, b"region (0,0)")?;
    count(rt, &pieces, 3, 3, &CHEQUER, 2, Cell(0, 0))?;
    text(rt, b"region (2,2)")?;
    count(rt, &pieces, 3, 3, &CHEQUER, 2, Cell(2, 2))?;
    text(rt, b"1 of 2 tiles")?;
    let counts = [1u32; 9];
    share(rt, &counts, 3, 3, 2, Cell(1, 1))
}

// One tile 123/456/789: past the bottom or right a window stays, so that no colour serves all of them; alone in its corner a cell
// keeps the window that starts there.
fn past_the_edge(rt: &impl Print) -> io::Result<()> {
    let tile = [1u8, 2, 3, 4, 5, 6, 7, 8, 9];
    let pieces = [1u32; 9];
    text(rt, b"one tile 123/456/789, fresh 3x3\n(0,0)")?;
    list(rt, &pieces, 3, 3, &tile, 9, World(0, 0))?;
    text(rt, b"(2,0)")?;
    list(rt, &pieces, 3, 3, &tile, 9, World(2, 0))?;
    text(rt, b"(0,2)")?;
    list(rt, &pieces, 3, 3, &tile, 9, World(0, 2))?;
    let unknown = [0u8; 9];
    text(rt, b"a tile that is unknown\n(0,0)")?;
    list(rt, &pieces, 3, 3, &unknown, 9, World(0, 0))
}

fn bounds(rt: &impl Print) -> io::Result<()> {
    let pieces = [1u32; 4096];
    text(rt, b"30 colours")?;
    list(rt, &pieces, 64, 64, &CHEQUER, 30, World(0, 0))?;
    text(rt, b"31 colours")?;
    list(rt, &pieces, 64, 64, &CHEQUER, 31, World(0, 0))?;
    text(rt, b"side 64")?;
    list(rt, &pieces, 64, 64, &CHEQUER, 2, World(63, 63))?;
    text(rt, b"side 65")?;
    list(rt, &pieces, 65, 64, &CHEQUER, 2, World(0, 0))?;
    text(rt, b"a plane too long")?;
    list(rt, &pieces, 64, 63, &CHEQUER, 2, World(0, 0))?;
    text(rt, b"a tile list with a byte over")?;
    let over = [1u8; 10];
    list(rt, &pieces, 64, 64, &over, 2, World(0, 0))?;
    text(rt, b"a tile cell above the count")?;
    list(rt, &pieces, 64, 64, &CHEQUER, 1, World(0, 0))?;
    text(rt, b"off the board")?;
    list(rt, &pieces, 64, 64, &CHEQUER, 2, World(64, 0))?;
    text(rt, b"a region that starts off the board")?;
    count(rt, &pieces, 64, 64, &CHEQUER, 2, Cell(0, 64))?;
    text(rt, b"a count above the tiles")?;
    let counts = [3u32; 9];
    share(rt, &counts, 3, 3, 2, Cell(0, 0))
}

// SHAPE comes before LENGTH, COUNT, CELL and PLACE, and so on.
fn several_faults(rt: &impl Print) -> io::Result<()> {
    let pieces = [0u32; 9];
    let over = [9u8; 10];
    text(rt, b"all faults at once")?;
    list(rt, &pieces, 0, 3, &over, 0, World(9, 9))?;
    text(rt, b"all but SHAPE")?;
    list(rt, &pieces, 3, 3, &over, 0, World(9, 9))?;
    text(rt, b"all but SHAPE and LENGTH")?;
    list(rt, &pieces, 3, 3, &CHEQUER, 0, World(9, 9))?;
    text(rt, b"CELL and PLACE")?;
    list(rt, &pieces, 3, 3, &CHEQUER, 2, World(9, 9))
}

fn main(rt: HostRuntime) -> io::Result<()> {
    chequer(&rt)?;
    past_the_edge(&rt)?;
    bounds(&rt)?;
    several_faults(&rt)
}
