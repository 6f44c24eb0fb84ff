// The functions of the desk program, which is C: fitting colours, lay, lift, the forced run, widening and plain scores on numbers, byte
// tiles, u32 planes and a plane of scores. include/desk.h is their C side, for the C programmer; a place goes over as a row and a column on
// the wall, the offset likewise, a span as its two ends; each answer is 0 or document 01's refusal number.
#![tactic(auto)]

ghost use Rattle.rules.specs.Promises.{before, after, board, board_before, board_after};
ghost use Rattle.boundary_slots.specs.Slots.{world, bounds_from, pads_by};
ghost use Rattle.boundary.specs.Boundary.{Tells};
ghost use Rattle.desk.specs.Desk.{colours_stored, beside, DeskLists, DeskLays, DeskLifts, DeskRuns, DeskWidens, DeskScores, DeskScoresNear};

use boundary::{widened, written};
use boundary_slots::{bounds_from, offset_at, put, world_at};
use rules::{Pads, Refusal, Span, Spans, TileBitset};

// The set goes over in one entry of 64 bits, so that sets of up to 64 colours leave the C side as it is; further entries are for what a
// listing may tell one day beside its colours.
fn found_colours(answer: Result<TileBitset, Refusal>, found: &mut [u64]) -> u32
    ensures { Tells colours_stored answer (before found) result (after found) }
{
    if let Ok(set) = answer {
        put(found, 0, u64::from(set.bits));
    }
    written(answer)
}

pub fn desk_fitting_colours(
    pieces: &[u32],
    rows: usize,
    cols: usize,
    tiles: &[u8],
    count: u32,
    row: i32,
    col: i32,
    down: i32,
    across: i32,
    found: &mut [u64],
) -> u32
    ensures { DeskLists pieces.now rows cols tiles.now count row col down across (before found) result (after found) }
{
    let listed_at = world_at(row, col);
    let offset = offset_at(down, across);
    found_colours(
        fit::compute_viable_tiles_at_position(pieces, rows, cols, tiles, count, listed_at, offset),
        found,
    )
}

pub fn desk_lay(
    pieces: &mut [u32],
    weights: &mut [u32],
    counts: &mut [u32],
    rows: usize,
    cols: usize,
    tiles: &[u8],
    count: u32,
    row: i32,
    col: i32,
    down: i32,
    across: i32,
    colour: u32,
) -> u32
    ensures { DeskLays rows cols tiles.now count row col down across colour
        (board_before pieces weights counts) result (board_after pieces weights counts) }
{
    let laid_at = world_at(row, col);
    let offset = offset_at(down, across);
    written(board::lay(
        pieces, weights, counts, rows, cols, tiles, count, laid_at, offset, colour,
    ))
}

pub fn desk_lift(
    pieces: &mut [u32],
    weights: &mut [u32],
    counts: &mut [u32],
    rows: usize,
    cols: usize,
    tiles: &[u8],
    count: u32,
    row: i32,
    col: i32,
    down: i32,
    across: i32,
) -> u32
    ensures { DeskLifts rows cols tiles.now count row col down across
        (board_before pieces weights counts) result (board_after pieces weights counts) }
{
    let lifted_at = world_at(row, col);
    let offset = offset_at(down, across);
    written(board::lift(
        pieces, weights, counts, rows, cols, tiles, count, lifted_at, offset,
    ))
}

// How the run ended goes into the first entry of `ran`, 0 done, 1 spent, 2 full; then how many entries were taken, and how many laid. The
// corners are read only within a box.
pub fn desk_forced_run(
    pieces: &mut [u32],
    weights: &mut [u32],
    counts: &mut [u32],
    rows: usize,
    cols: usize,
    tiles: &[u8],
    count: u32,
    row: i32,
    col: i32,
    down: i32,
    across: i32,
    within: bool,
    minrow: i32,
    mincol: i32,
    maxrow: i32,
    maxcol: i32,
    budget: usize,
    ran: &mut [u64],
) -> u32
    ensures { DeskRuns rows cols tiles.now count row col down across (bounds_from within (world minrow mincol) (world maxrow maxcol)) budget
        (board_before pieces weights counts) (before ran) result (beside (board_after pieces weights counts) (after ran)) }
{
    let place = world_at(row, col);
    let offset = offset_at(down, across);
    let least = world_at(minrow, mincol);
    let most = world_at(maxrow, maxcol);
    let bounds = bounds_from(within, least, most);
    boundary_longs::ran(
        board_forced::forced_run(
            pieces, weights, counts, rows, cols, tiles, count, place, offset, bounds, budget,
        ),
        ran,
    )
}

// The board goes into three larger planes, and the new offset into the first two entries of `offset`: rows, then columns.
pub fn desk_widen(
    widepieces: &mut [u32],
    wideweights: &mut [u32],
    widecounts: &mut [u32],
    pieces: &[u32],
    weights: &[u32],
    counts: &[u32],
    rows: usize,
    cols: usize,
    left: usize,
    right: usize,
    top: usize,
    bottom: usize,
    tiles: &[u8],
    count: u32,
    down: i32,
    across: i32,
    offset: &mut [i32],
) -> u32
    ensures { DeskWidens rows cols (pads_by left right top bottom) tiles.now count down across (board pieces.now weights.now counts.now)
        (board_before widepieces wideweights widecounts) (before offset) result (beside (board_after widepieces wideweights widecounts) (after offset)) }
{
    let pads = Pads {
        left,
        right,
        top,
        bottom,
    };
    let from = offset_at(down, across);
    widened(
        board_widen::widen(
            widepieces,
            wideweights,
            widecounts,
            pieces,
            weights,
            counts,
            rows,
            cols,
            pads,
            tiles,
            count,
            from,
        ),
        offset,
    )
}

// The number of tiles is a number here, as in all scores: the list itself is not looked at.
pub fn desk_plain_score(
    scores: &mut [f64],
    counts: &[u32],
    rows: usize,
    cols: usize,
    tiles: usize,
) -> u32
    ensures { DeskScores rows cols counts.now tiles (before scores) result (after scores) }
{
    written(score_plain::plain_score(scores, counts, rows, cols, tiles))
}

pub fn desk_plain_score_near(
    scores: &mut [f64],
    counts: &[u32],
    rows: usize,
    cols: usize,
    tiles: usize,
    rowstart: usize,
    rowend: usize,
    colstart: usize,
    colend: usize,
) -> u32
    ensures { DeskScoresNear rows cols counts.now tiles rowstart rowend colstart colend (before scores) result (after scores) }
{
    written(score_plain::plain_score_near(
        scores,
        counts,
        rows,
        cols,
        tiles,
        Spans {
            rows: Span(rowstart, rowend),
            cols: Span(colstart, colend),
        },
    ))
}
