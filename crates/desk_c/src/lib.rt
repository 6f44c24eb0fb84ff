// The desk's functions for C: include/desk.h is their C side. Each hands on what crate desk has under the same name.
#![tactic(auto)]

ghost use Rattle.rules.specs.Promises.{before, after, board, board_before, board_after};
ghost use Rattle.boundary_slots.specs.Slots.{world, bounds_from, pads_by};
ghost use Rattle.desk.specs.Desk.{beside, DeskLists, DeskLays, DeskLifts, DeskRuns, DeskWidens, DeskScores, DeskScoresNear};

#[unsafe(no_mangle)]
pub extern "C" fn desk_fitting_colours(
    pieces: &[u32],
    rows: usize,
    cols: usize,
    tiles: &[u8],
    count: u32,
    row: i32,
    col: i32,
    down: i32,
    across: i32,
    found: &mut [u64],
) -> u32
    ensures { DeskLists pieces.now rows cols tiles.now count row col down across (before found) result (after found) }
{
    desk::desk_fitting_colours(
        pieces, rows, cols, tiles, count, row, col, down, across, found,
    )
}

#[unsafe(no_mangle)]
pub extern "C" fn desk_lay(
    pieces: &mut [u32],
    weights: &mut [u32],
    counts: &mut [u32],
    rows: usize,
    cols: usize,
    tiles: &[u8],
    count: u32,
    row: i32,
    col: i32,
    down: i32,
    across: i32,
    colour: u32,
) -> u32
    ensures { DeskLays rows cols tiles.now count row col down across colour
        (board_before pieces weights counts) result (board_after pieces weights counts) }
{
    desk::desk_lay(
        pieces, weights, counts, rows, cols, tiles, count, row, col, down, across, colour,
    )
}

#[unsafe(no_mangle)]
pub extern "C" fn desk_lift(
    pieces: &mut [u32],
    weights: &mut [u32],
    counts: &mut [u32],
    rows: usize,
    cols: usize,
    tiles: &[u8],
    count: u32,
    row: i32,
    col: i32,
    down: i32,
    across: i32,
) -> u32
    ensures { DeskLifts rows cols tiles.now count row col down across
        (board_before pieces weights counts) result (board_after pieces weights counts) }
{
    desk::desk_lift(
        pieces, weights, counts, rows, cols, tiles, count, row, col, down, across,
    )
}

#[unsafe(no_mangle)]
pub extern "C" fn desk_forced_run(
    pieces: &mut [u32],
    weights: &mut [u32],
    counts: &mut [u32],
    rows: usize,
    cols: usize,
    tiles: &[u8],
    count: u32,
    row: i32,
    col: i32,
    down: i32,
    across: i32,
    within: bool,
    minrow: i32,
    mincol: i32,
    maxrow: i32,
    maxcol: i32,
    budget: usize,
    ran: &mut [u64],
) -> u32
    ensures { DeskRuns rows cols tiles.now count row col down across (bounds_from within (world minrow mincol) (world maxrow maxcol)) budget
        (board_before pieces weights counts) (before ran) result (beside (board_after pieces weights counts) (after ran)) }
{
    desk::desk_forced_run(
        pieces, weights, counts, rows, cols, tiles, count, row, col, down, across, within, minrow,
        mincol, maxrow, maxcol, budget, ran,
    )
}

#[unsafe(no_mangle)]
pub extern "C" fn desk_widen(
    widepieces: &mut [u32],
    wideweights: &mut [u32],
    widecounts: &mut [u32],
    pieces: &[u32],
    weights: &[u32],
    counts: &[u32],
    rows: usize,
    cols: usize,
    left: usize,
    right: usize,
    top: usize,
    bottom: usize,
    tiles: &[u8],
    count: u32,
    down: i32,
    across: i32,
    offset: &mut [i32],
) -> u32
    ensures { DeskWidens rows cols (pads_by left right top bottom) tiles.now count down across (board pieces.now weights.now counts.now)
        (board_before widepieces wideweights widecounts) (before offset) result (beside (board_after widepieces wideweights widecounts) (after offset)) }
{
    desk::desk_widen(
        widepieces,
        wideweights,
        widecounts,
        pieces,
        weights,
        counts,
        rows,
        cols,
        left,
        right,
        top,
        bottom,
        tiles,
        count,
        down,
        across,
        offset,
    )
}

#[unsafe(no_mangle)]
pub extern "C" fn desk_plain_score(
    scores: &mut [f64],
    counts: &[u32],
    rows: usize,
    cols: usize,
    tiles: usize,
) -> u32
    ensures { DeskScores rows cols counts.now tiles (before scores) result (after scores) }
{
    desk::desk_plain_score(scores, counts, rows, cols, tiles)
}

#[unsafe(no_mangle)]
pub extern "C" fn desk_plain_score_near(
    scores: &mut [f64],
    counts: &[u32],
    rows: usize,
    cols: usize,
    tiles: usize,
    rowstart: usize,
    rowend: usize,
    colstart: usize,
    colend: usize,
) -> u32
    ensures { DeskScoresNear rows cols counts.now tiles rowstart rowend colstart colend (before scores) result (after scores) }
{
    desk::desk_plain_score_near(
        scores, counts, rows, cols, tiles, rowstart, rowend, colstart, colend,
    )
}
