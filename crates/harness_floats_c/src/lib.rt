// Exports for the comparison with the text, for C: each hands on what crate harness_floats has under the same name.
#![tactic(auto)]

ghost use Rattle.rules.specs.Promises.{before, after, Normalises, Multiplies, Divides, ScoresLay, ScoresLift};
ghost use Rattle.probability_influence.specs.Step.{block_of};
ghost use Rattle.boundary_slots.specs.Slots.{world, offset_by};
ghost use Rattle.boundary.specs.Boundary.{Numbered};
ghost use Rattle.harness_floats.specs.Spans.{span_from};

#[unsafe(no_mangle)]
pub extern "C" fn port_normalise(
    probabilities: &[f64],
    rows: usize,
    cols: usize,
    count: u32,
    row: i32,
    col: i32,
    down: i32,
    across: i32,
    out: &mut [f64],
) -> u32
    ensures { Numbered (Normalises probabilities.now rows cols count (world row col) (offset_by down across)
        (before out)) result (after out) }
{
    harness_floats::port_normalise(
        probabilities,
        rows,
        cols,
        count,
        row,
        col,
        down,
        across,
        out,
    )
}

#[unsafe(no_mangle)]
pub extern "C" fn port_product(
    probabilities: &mut [f64],
    rows: usize,
    cols: usize,
    count: u32,
    block: &[f64],
    blockrows: usize,
    blockcols: usize,
    row: i32,
    col: i32,
    down: i32,
    across: i32,
    radius: usize,
) -> u32
    ensures { Numbered (Multiplies rows cols count (block_of blockrows blockcols block.now) (world row col) (offset_by down across)
        radius (before probabilities)) result (after probabilities) }
{
    harness_floats::port_product(
        probabilities,
        rows,
        cols,
        count,
        block,
        blockrows,
        blockcols,
        row,
        col,
        down,
        across,
        radius,
    )
}

#[unsafe(no_mangle)]
pub extern "C" fn port_quotient(
    probabilities: &mut [f64],
    rows: usize,
    cols: usize,
    count: u32,
    block: &[f64],
    blockrows: usize,
    blockcols: usize,
    row: i32,
    col: i32,
    down: i32,
    across: i32,
    radius: usize,
) -> u32
    ensures { Numbered (Divides rows cols count (block_of blockrows blockcols block.now) (world row col) (offset_by down across)
        radius (before probabilities)) result (after probabilities) }
{
    harness_floats::port_quotient(
        probabilities,
        rows,
        cols,
        count,
        block,
        blockrows,
        blockcols,
        row,
        col,
        down,
        across,
        radius,
    )
}

#[unsafe(no_mangle)]
pub extern "C" fn port_lay_score(
    scores: &mut [f64],
    counts: &[u32],
    rows: usize,
    cols: usize,
    tiles: usize,
    row: i32,
    col: i32,
    down: i32,
    across: i32,
) -> u32
    ensures { Numbered (ScoresLay rows cols counts.now tiles (world row col) (offset_by down across)
        (before scores)) result (after scores) }
{
    harness_floats::port_lay_score(scores, counts, rows, cols, tiles, row, col, down, across)
}

#[unsafe(no_mangle)]
pub extern "C" fn port_lift_score(
    scores: &mut [f64],
    counts: &[u32],
    rows: usize,
    cols: usize,
    tiles: usize,
    rowstart: usize,
    rowend: usize,
    colstart: usize,
    colend: usize,
) -> u32
    ensures { Numbered (ScoresLift rows cols counts.now tiles (span_from rowstart rowend) (span_from colstart colend)
        (before scores)) result (after scores) }
{
    harness_floats::port_lift_score(
        scores, counts, rows, cols, tiles, rowstart, rowend, colstart, colend,
    )
}
