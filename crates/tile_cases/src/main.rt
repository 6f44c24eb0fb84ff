// Document 01's cases of tiles, and the refusals of extraction and membership, on the compiled code: what this prints is held to the
// file `stdout`. Each store starts as 77 everywhere and is printed whole, so what was not written shows.
#![tactic(auto)]

use rules::{ColourList, Refusal};
use std::io;

// A heading, numbers with single blanks, and a line feed.
fn print_line(rt: &impl Print, heading: &[u8], bytes: &[u8]) -> io::Result<()> {
    rt.write_all(heading)?;
    for byte in bytes {
        rt.write_all(b" ")?;
        rt.print(u64::from(*byte))?;
    }
    rt.write_all(b"\n")
}

fn print_refused(rt: &impl Print, refusal: Refusal) -> io::Result<()> {
    rt.write_all(b"refused ")?;
    rt.print(refusal as u64)
}

// The number of tiles or the refusal, then the store.
fn print_extraction(
    rt: &impl Print,
    answer: Result<usize, Refusal>,
    store: &[u8],
) -> io::Result<()> {
    match answer {
        Ok(n) => {
            rt.write_all(b"tiles ")?;
            rt.print(n as u64)?;
        }
        Err(refusal) => print_refused(rt, refusal)?,
    }
    print_line(rt, b":", store)
}

// 123/456/789 into a store with one byte more than eight tiles.
fn print_nine(rt: &impl Print, rotations: bool, reflections: bool) -> io::Result<()> {
    let source = [1u8, 2, 3, 4, 5, 6, 7, 8, 9];
    let mut store = [77u8; 73];
    let answer = tiles::extract_tiles(&source, 3, 3, 9, rotations, reflections, &mut store);
    print_extraction(rt, answer, &store)
}

// A sample into a store of twenty bytes, which two tiles fit.
fn print_sample(
    rt: &impl Print,
    source: &[u8],
    rows: usize,
    cols: usize,
    count: u32,
    all_forms: bool,
) -> io::Result<()> {
    let mut store = [77u8; 20];
    let answer = tiles::extract_tiles(source, rows, cols, count, all_forms, all_forms, &mut store);
    print_extraction(rt, answer, &store)
}

// The colours of a tile, listed.
fn members_of(tile: [u8; 9], count: u32) -> Result<ColourList, Refusal> {
    bitset::to_vec(tiles::convert_tile_to_membership_booleans(tile, count)?)
}

fn print_members(rt: &impl Print, tile: [u8; 9], count: u32) -> io::Result<()> {
    match members_of(tile, count) {
        Ok(list) => print_line(rt, b"members:", &list.colours),
        Err(refusal) => {
            print_refused(rt, refusal)?;
            rt.write_all(b"\n")
        }
    }
}

// SHAPE, LENGTH, COUNT, CELL and ROOM; the lowest where several hold.
fn print_refusals(rt: &impl Print) -> io::Result<()> {
    let source = [1u8, 2, 2, 1];
    print_sample(rt, &source, 0, 2, 31, false)?;
    print_sample(rt, &source, 33, 2, 2, false)?;
    print_sample(rt, &source, 2, 3, 31, false)?;
    print_sample(rt, &source, 2, 2, 31, false)?;
    print_sample(rt, &source, 2, 2, 0, false)?;
    print_sample(rt, &source, 2, 2, 1, true)?;
    print_sample(rt, &source, 2, 2, 2, true)?;
    print_sample(rt, &source, 2, 2, 30, false)
}

fn main(rt: HostRuntime) -> io::Result<()> {
    let nine = [1u8, 2, 3, 4, 5, 6, 7, 8, 9];
    print_line(&rt, b"rotated:", &tile_forms::rotate_90(nine))?;
    print_line(&rt, b"reflected:", &tile_forms::reflect(nine))?;
    print_nine(&rt, true, true)?;
    print_nine(&rt, true, false)?;
    print_nine(&rt, false, true)?;
    print_nine(&rt, false, false)?;
    print_refusals(&rt)?;
    print_members(&rt, [1, 2, 0, 2, 1, 0, 0, 0, 0], 2)?;
    print_members(&rt, nine, 8)?;
    print_members(&rt, nine, 31)
}
