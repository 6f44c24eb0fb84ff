// Document 01's float cases and the refusals of the five float calls, on the compiled code. A float is printed by its bits, sixteen
// hexadecimal digits: 3ff0.. is 1.0, 3fe0.. 0.5, 3fd0.. 0.25. "Chequer" is the two tiles of the listing program's sample.
#![tactic(auto)]

use rules::{Offset, Refusal, Span, Spans, World};
use std::io;

const CHEQUER: [u8; 18] = [1, 2, 1, 2, 1, 2, 1, 2, 1, 2, 1, 2, 1, 2, 1, 2, 1, 2];

fn text(rt: &impl Print, words: &[u8]) -> io::Result<()> {
    rt.write_all(words)
}

// A NaN has no bits of its own: its sign and payload are not the rules'.
fn bits(rt: &impl Print, x: f64) -> io::Result<()> {
    text(rt, b" ")?;
    if x == x {
        print!(rt; "{:016x}", f64::to_bits(x))
    } else {
        text(rt, b"nan")
    }
}

fn end_of_row(rt: &impl Print, k: usize, cols: usize) -> io::Result<()> {
    if 0 < cols && k % cols == 0 {
        text(rt, b"\n")?;
    }
    Ok(())
}

// A plane, so many cells a line.
fn plane_of(rt: &impl Print, xs: &[f64], cols: usize) -> io::Result<()> {
    for (k, x) in xs.iter().enumerate() {
        bits(rt, *x)?;
        end_of_row(rt, k + 1, cols)?;
    }
    Ok(())
}

fn line(rt: &impl Print, xs: &[f64]) -> io::Result<()> {
    plane_of(rt, xs, xs.len())
}

fn answered(rt: &impl Print, answer: Result<(), Refusal>) -> io::Result<()> {
    match answer {
        Ok(()) => text(rt, b"done\n"),
        Err(refusal) => {
            text(rt, b"refused ")?;
            rt.print(refusal as u64)?;
            text(rt, b"\n")
        }
    }
}

fn infinity() -> f64 {
    1.0 / 0.0
}

fn no_number() -> f64 {
    0.0 / 0.0
}

// ---- normalising. Out holds 9.0 before each call.

fn two(
    rt: &impl Print,
    plane: &[f64],
    rows: usize,
    cols: usize,
    place: World,
    offset: Offset,
) -> io::Result<()> {
    let mut out = [9.0f64; 2];
    answered(
        rt,
        probabilities::get_tile_probabilities_at_position(
            plane, rows, cols, 2, place, offset, &mut out,
        ),
    )?;
    line(rt, &out)
}

fn four(rt: &impl Print, plane: &[f64; 4], place: World) -> io::Result<()> {
    let mut out = [9.0f64; 4];
    answered(
        rt,
        probabilities::get_tile_probabilities_at_position(
            plane,
            1,
            1,
            4,
            place,
            Offset(0, 0),
            &mut out,
        ),
    )?;
    line(rt, &out)
}

fn normalising(rt: &impl Print) -> io::Result<()> {
    let here = World(0, 0);
    let none = Offset(0, 0);
    text(rt, b"2.0, 2.0\n")?;
    two(rt, &[2.0f64, 2.0], 1, 1, here, none)?;
    text(rt, b"four zeros\n")?;
    four(rt, &[0.0f64; 4], here)?;
    text(rt, b"off the board, four colours\n")?;
    four(rt, &[1.0f64, 2.0, 3.0, 4.0], World(1, 0))?;
    text(
        rt,
        b"1.0, 1.0, 1.0, 10.0: by the largest, summed upwards, by the total\n",
    )?;
    four(rt, &[1.0f64, 1.0, 1.0, 10.0], here)?;
    text(rt, b"one infinite\n")?;
    two(rt, &[infinity(), 2.0], 1, 1, here, none)?;
    text(rt, b"-0.0, 1.0\n")?;
    two(rt, &[-0.0f64, 1.0], 1, 1, here, none)?;
    let plane = [1.0f64, 3.0, 1.0, 5.0, 1.0, 1.0, 3.0, 5.0];
    text(
        rt,
        b"2x2 with 1.0 3.0 1.0 5.0 and 1.0 1.0 3.0 5.0: (0,0), (0,1), (1,0)\n",
    )?;
    two(rt, &plane, 2, 2, here, none)?;
    two(rt, &plane, 2, 2, World(0, 1), none)?;
    two(rt, &plane, 2, 2, World(1, 0), none)?;
    text(rt, b"(1,0) of it by an offset\n")?;
    two(rt, &plane, 2, 2, World(-10, 20), Offset(11, -20))
}

// Out has room for 31 colours; its first and last entries are shown.
fn many(
    rt: &impl Print,
    plane: &[f64],
    count: u32,
    place: World,
    offset: Offset,
) -> io::Result<()> {
    let mut out = [9.0f64; 31];
    answered(
        rt,
        probabilities::get_tile_probabilities_at_position(
            plane, 1, 1, count, place, offset, &mut out,
        ),
    )?;
    bits(rt, out[0])?;
    bits(rt, out[30])?;
    text(rt, b"\n")
}

fn normalising_refused(rt: &impl Print) -> io::Result<()> {
    let here = World(0, 0);
    let none = Offset(0, 0);
    text(
        rt,
        b"normalising: side 0, side 65, a plane too long, out too long, 31 colours\n",
    )?;
    two(rt, &[2.0f64, 2.0], 0, 1, here, none)?;
    two(rt, &[2.0f64, 2.0], 1, 65, here, none)?;
    two(rt, &[2.0f64, 2.0, 2.0], 1, 1, here, none)?;
    many(rt, &[2.0f64; 30], 30, here, none)?;
    many(rt, &[2.0f64; 31], 31, here, none)?;
    text(
        rt,
        b"a NaN, one below zero, a coordinate and an offset out of bounds\n",
    )?;
    two(rt, &[2.0f64, no_number()], 1, 1, here, none)?;
    two(rt, &[-0.5f64, 2.0], 1, 1, here, none)?;
    two(rt, &[2.0f64, 2.0], 1, 1, World(1_000_001, 0), none)?;
    two(rt, &[2.0f64, 2.0], 1, 1, here, Offset(0, -999_938))?;
    text(rt, b"SHAPE, LENGTH, NUMBER and PLACE at once\n")?;
    two(
        rt,
        &[-0.5f64, 2.0, 2.0],
        0,
        1,
        World(1_000_001, 0),
        Offset(0, -999_938),
    )
}

// ---- the product step and its reverse, on 3x3

// One colour, every probability 8.0, by a block 2.0 4.0 / 0.0 0.5, and back.
fn one_colour(rt: &impl Print, place: World, radius: usize) -> io::Result<()> {
    let block = [2.0f64, 4.0, 0.0, 0.5];
    let mut plane = [8.0f64; 9];
    let none = Offset(0, 0);
    answered(
        rt,
        probabilities::update_probabilities(&mut plane, 3, 3, 1, &block, 2, 2, place, none, radius),
    )?;
    plane_of(rt, &plane, 3)?;
    answered(
        rt,
        probabilities::revert_probabilities(&mut plane, 3, 3, 1, &block, 2, 2, place, none, radius),
    )?;
    plane_of(rt, &plane, 3)
}

fn eights_and_ones() -> [f64; 18] {
    [
        8.0f64, 8.0, 8.0, 8.0, 8.0, 8.0, 8.0, 8.0, 8.0, 1.0, 1.0, 1.0, 1.0, 1.0, 1.0, 1.0, 1.0, 1.0,
    ]
}

// Two colours, 8.0 and 1.0, each by its part of the block: 2.0 4.0 and 0.25 3.0.
fn two_colours(rt: &impl Print) -> io::Result<()> {
    let block = [2.0f64, 4.0, 0.25, 3.0];
    let at = World(-5, 12);
    let offset = Offset(6, -11);
    let mut raised = eights_and_ones();
    answered(
        rt,
        probabilities::update_probabilities(&mut raised, 3, 3, 2, &block, 1, 2, at, offset, 1),
    )?;
    plane_of(rt, &raised, 3)?;
    let mut lowered = eights_and_ones();
    answered(
        rt,
        probabilities::revert_probabilities(&mut lowered, 3, 3, 2, &block, 1, 2, at, offset, 0),
    )?;
    plane_of(rt, &lowered, 3)
}

fn products(rt: &impl Print) -> io::Result<()> {
    text(
        rt,
        b"8.0 by 2.0 4.0 / 0.0 0.5, place (0,0), radius 1: clipped at the first row and column; and back\n",
    )?;
    one_colour(rt, World(0, 0), 1)?;
    text(rt, b"place (1,1): beyond the block\n")?;
    one_colour(rt, World(1, 1), 1)?;
    text(rt, b"place (2,2): clipped at the last\n")?;
    one_colour(rt, World(2, 2), 1)?;
    text(rt, b"place (2,1), radius 0\n")?;
    one_colour(rt, World(2, 1), 0)?;
    text(
        rt,
        b"two colours, place (1,1) by an offset, radius 1: the product; radius 0: the quotient\n",
    )?;
    two_colours(rt)
}

// Both calls on one colour, 3x3, where each refuses: the plane is shown after both.
fn both(
    rt: &impl Print,
    plane: &mut [f64],
    rows: usize,
    count: u32,
    block: &[f64],
    blockrows: usize,
    place: World,
    radius: usize,
) -> io::Result<()> {
    let none = Offset(0, 0);
    answered(
        rt,
        probabilities::update_probabilities(
            plane, rows, 3, count, block, blockrows, 1, place, none, radius,
        ),
    )?;
    answered(
        rt,
        probabilities::revert_probabilities(
            plane, rows, 3, count, block, blockrows, 1, place, none, radius,
        ),
    )?;
    line(rt, plane)
}

fn products_refused(rt: &impl Print) -> io::Result<()> {
    let here = World(0, 0);
    let block = [2.0f64; 1];
    let mut row = [8.0f64, 7.0, 6.0];
    text(
        rt,
        b"product and quotient: side 0, block side 0, block side 128, radius 64\n",
    )?;
    both(rt, &mut row, 0, 1, &block, 1, here, 1)?;
    both(rt, &mut row, 1, 1, &block, 0, here, 1)?;
    both(rt, &mut row, 1, 1, &[2.0f64; 128], 128, here, 1)?;
    both(rt, &mut row, 1, 1, &block, 1, here, 64)?;
    text(
        rt,
        b"a plane too short, a block too long, no colour, off the board\n",
    )?;
    both(rt, &mut row, 2, 1, &block, 1, here, 1)?;
    both(rt, &mut row, 1, 1, &[2.0f64; 2], 1, here, 1)?;
    both(rt, &mut [0.0f64; 0], 1, 0, &[0.0f64; 0], 1, here, 1)?;
    both(rt, &mut row, 1, 1, &block, 1, World(0, 3), 1)
}

fn factors_refused(rt: &impl Print) -> io::Result<()> {
    let here = World(0, 0);
    let mut row = [8.0f64, 7.0, 6.0];
    text(rt, b"a factor that is NaN, below zero, infinite\n")?;
    both(rt, &mut row, 1, 1, &[no_number()], 1, here, 1)?;
    both(rt, &mut row, 1, 1, &[-2.0f64], 1, here, 1)?;
    both(rt, &mut row, 1, 1, &[infinity()], 1, here, 1)?;
    text(rt, b"a probability that is NaN, below zero, infinite\n")?;
    let block = [2.0f64; 1];
    both(
        rt,
        &mut [8.0f64, 7.0, no_number()],
        1,
        1,
        &block,
        1,
        here,
        1,
    )?;
    both(rt, &mut [8.0f64, -7.0, 6.0], 1, 1, &block, 1, here, 1)?;
    both(rt, &mut [8.0f64, 7.0, infinity()], 1, 1, &block, 1, here, 1)?;
    text(
        rt,
        b"SHAPE, LENGTH, COUNT, NUMBER and PLACE at once, and without SHAPE\n",
    )?;
    both(rt, &mut row, 0, 31, &[-2.0f64], 1, World(9, 9), 1)?;
    both(rt, &mut row, 1, 31, &[-2.0f64], 1, World(9, 9), 1)
}

// ---- scores. Each stands at 7.0 before a call.

// The counts of a chequer 5x5 with 1 laid at (2,2).
fn chequer_counts() -> [u32; 25] {
    let mut pieces = [0u32; 25];
    let mut weights = [0u32; 25];
    let mut counts = [0u32; 25];
    let _ = board_fresh::fresh(&mut pieces, &mut weights, &mut counts, 5, 5, 2);
    let _ = board::lay(
        &mut pieces,
        &mut weights,
        &mut counts,
        5,
        5,
        &CHEQUER,
        2,
        World(2, 2),
        Offset(0, 0),
        1,
    );
    counts
}

fn lay_score(rt: &impl Print, place: World, offset: Offset) -> io::Result<()> {
    let counts = chequer_counts();
    let mut scores = [7.0f64; 25];
    answered(
        rt,
        scores::update_feasibility(&mut scores, &counts, 5, 5, 2, place, offset),
    )?;
    plane_of(rt, &scores, 5)
}

fn lift_score(rt: &impl Print, rows: Span, cols: Span) -> io::Result<()> {
    let counts = chequer_counts();
    let mut scores = [7.0f64; 25];
    answered(
        rt,
        scores::aggregate_feasibility(&mut scores, &counts, 5, 5, 2, Spans { rows, cols }),
    )?;
    plane_of(rt, &scores, 5)
}

// Nine fractions whose sum depends on the order: 5 0 4 / 1 6 3 / 3 4 1 of 6.
fn row_by_row(rt: &impl Print) -> io::Result<()> {
    let counts = [5u32, 0, 4, 1, 6, 3, 3, 4, 1];
    let mut scores = [7.0f64; 9];
    answered(
        rt,
        scores::update_feasibility(&mut scores, &counts, 3, 3, 6, World(1, 1), Offset(0, 0)),
    )?;
    plane_of(rt, &scores, 3)?;
    let spans = Spans {
        rows: Span(2, 3),
        cols: Span(2, 3),
    };
    answered(
        rt,
        scores::aggregate_feasibility(&mut scores, &counts, 3, 3, 6, spans),
    )?;
    plane_of(rt, &scores, 3)
}

fn scoring(rt: &impl Print) -> io::Result<()> {
    text(rt, b"chequer 5x5, 1 laid at (2,2): lay score\n")?;
    lay_score(rt, World(2, 2), Offset(0, 0))?;
    text(rt, b"round (4,4) by an offset\n")?;
    lay_score(rt, World(1, 6), Offset(3, -2))?;
    text(rt, b"lift score, rows 0 to 5, columns 0 to 5\n")?;
    lift_score(rt, Span(0, 5), Span(0, 5))?;
    text(rt, b"rows 2 to 3, columns 1 to 4\n")?;
    lift_score(rt, Span(2, 3), Span(1, 4))?;
    text(rt, b"rows 3 to 2: empty\n")?;
    lift_score(rt, Span(3, 2), Span(0, 5))?;
    text(
        rt,
        b"3x3, 5 0 4 / 1 6 3 / 3 4 1 of 6 tiles: lay score, then lift score at (2,2)\n",
    )?;
    row_by_row(rt)
}

// Both calls on 1 row of 3 cells: the scores are shown after both.
fn both_scores(
    rt: &impl Print,
    scores: &mut [f64],
    counts: &[u32],
    rows: usize,
    tiles: usize,
    place: World,
    cols: Span,
) -> io::Result<()> {
    let none = Offset(0, 0);
    let spans = Spans {
        rows: Span(0, 0),
        cols,
    };
    answered(
        rt,
        scores::update_feasibility(scores, counts, rows, 3, tiles, place, none),
    )?;
    answered(
        rt,
        scores::aggregate_feasibility(scores, counts, rows, 3, tiles, spans),
    )?;
    line(rt, scores)
}

fn scores_refused(rt: &impl Print) -> io::Result<()> {
    let here = World(0, 0);
    let all = Span(0, 3);
    let counts = [2u32, 1, 2];
    let mut row = [7.0f64, 6.0, 5.0];
    text(
        rt,
        b"scores: side 0, scores too short, counts too long, no tiles, 7,201 tiles\n",
    )?;
    both_scores(rt, &mut row, &counts, 0, 2, here, all)?;
    both_scores(rt, &mut [7.0f64, 6.0], &counts, 1, 2, here, all)?;
    both_scores(rt, &mut row, &[2u32, 1, 2, 1], 1, 2, here, all)?;
    both_scores(rt, &mut row, &counts, 1, 0, here, all)?;
    both_scores(rt, &mut row, &counts, 1, 7_201, here, all)?;
    text(
        rt,
        b"a count above the tiles; a score that is NaN, below zero, infinite\n",
    )?;
    both_scores(rt, &mut row, &counts, 1, 1, here, all)?;
    both_scores(
        rt,
        &mut [7.0f64, no_number(), 5.0],
        &counts,
        1,
        2,
        here,
        all,
    )?;
    both_scores(rt, &mut [7.0f64, 6.0, -5.0], &counts, 1, 2, here, all)?;
    both_scores(rt, &mut [infinity(), 6.0, 5.0], &counts, 1, 2, here, all)?;
    text(
        rt,
        b"the lay off the board, the lift with a span end past it\n",
    )?;
    both_scores(rt, &mut row, &counts, 1, 2, World(1, 0), Span(0, 4))?;
    text(rt, b"LENGTH, CELL, NUMBER and PLACE or SHAPE at once\n")?;
    both_scores(
        rt,
        &mut [7.0f64, -6.0],
        &counts,
        1,
        1,
        World(1, 0),
        Span(0, 4),
    )
}

fn main(rt: HostRuntime) -> io::Result<()> {
    normalising(&rt)?;
    normalising_refused(&rt)?;
    products(&rt)?;
    products_refused(&rt)?;
    factors_refused(&rt)?;
    scoring(&rt)?;
    scores_refused(&rt)
}
