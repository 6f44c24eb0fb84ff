// The float steps for tests in another language: each hands its call the numbers and slices that it is given and tells its answer as crate
// boundary does. The product step and its reverse are written out, though alike: each makes a call of its own, and a closure over its eleven
// arguments would be longer.
#![tactic(auto)]

ghost use Rattle.rules.specs.Promises.{before, after, Normalises, Multiplies, Divides, ScoresLay, ScoresLift};
ghost use Rattle.probability_influence.specs.Step.{block_of};
ghost use Rattle.boundary_slots.specs.Slots.{world, offset_by};
ghost use Rattle.boundary.specs.Boundary.{Numbered};
ghost use Rattle.harness_floats.specs.Spans.{span_from};

use boundary::written;
use boundary_slots::{offset_at, world_at};
use rules::{Span, Spans};

pub fn port_normalise(
    probabilities: &[f64],
    rows: usize,
    cols: usize,
    count: u32,
    row: i32,
    col: i32,
    down: i32,
    across: i32,
    out: &mut [f64],
) -> u32
    ensures { Numbered (Normalises probabilities.now rows cols count (world row col) (offset_by down across)
        (before out)) result (after out) }
{
    let place = world_at(row, col);
    let offset = offset_at(down, across);
    let answer = probabilities::get_tile_probabilities_at_position(
        probabilities,
        rows,
        cols,
        count,
        place,
        offset,
        out,
    );
    written(answer)
}

pub fn port_product(
    probabilities: &mut [f64],
    rows: usize,
    cols: usize,
    count: u32,
    block: &[f64],
    blockrows: usize,
    blockcols: usize,
    row: i32,
    col: i32,
    down: i32,
    across: i32,
    radius: usize,
) -> u32
    ensures { Numbered (Multiplies rows cols count (block_of blockrows blockcols block.now) (world row col) (offset_by down across)
        radius (before probabilities)) result (after probabilities) }
{
    let place = world_at(row, col);
    let offset = offset_at(down, across);
    let answer = probabilities::update_probabilities(
        probabilities,
        rows,
        cols,
        count,
        block,
        blockrows,
        blockcols,
        place,
        offset,
        radius,
    );
    written(answer)
}

pub fn port_quotient(
    probabilities: &mut [f64],
    rows: usize,
    cols: usize,
    count: u32,
    block: &[f64],
    blockrows: usize,
    blockcols: usize,
    row: i32,
    col: i32,
    down: i32,
    across: i32,
    radius: usize,
) -> u32
    ensures { Numbered (Divides rows cols count (block_of blockrows blockcols block.now) (world row col) (offset_by down across)
        radius (before probabilities)) result (after probabilities) }
{
    let place = world_at(row, col);
    let offset = offset_at(down, across);
    let answer = probabilities::revert_probabilities(
        probabilities,
        rows,
        cols,
        count,
        block,
        blockrows,
        blockcols,
        place,
        offset,
        radius,
    );
    written(answer)
}

pub fn port_lay_score(
    scores: &mut [f64],
    counts: &[u32],
    rows: usize,
    cols: usize,
    tiles: usize,
    row: i32,
    col: i32,
    down: i32,
    across: i32,
) -> u32
    ensures { Numbered (ScoresLay rows cols counts.now tiles (world row col) (offset_by down across)
        (before scores)) result (after scores) }
{
    let place = world_at(row, col);
    let offset = offset_at(down, across);
    let answer = scores::update_feasibility(scores, counts, rows, cols, tiles, place, offset);
    written(answer)
}

pub fn port_lift_score(
    scores: &mut [f64],
    counts: &[u32],
    rows: usize,
    cols: usize,
    tiles: usize,
    rowstart: usize,
    rowend: usize,
    colstart: usize,
    colend: usize,
) -> u32
    ensures { Numbered (ScoresLift rows cols counts.now tiles (span_from rowstart rowend) (span_from colstart colend)
        (before scores)) result (after scores) }
{
    let spans = Spans {
        rows: Span(rowstart, rowend),
        cols: Span(colstart, colend),
    };
    let answer = scores::aggregate_feasibility(scores, counts, rows, cols, tiles, spans);
    written(answer)
}
