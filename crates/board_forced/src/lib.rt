// Document 02, request 2: the forced pieces of a board run out from a place, in one call. Document 01's checks are made once, on entry.
#![tactic(auto)]

ghost use Rattle.std.specs.Prelude.{◌≡◌};
ghost use Rattle.rules.specs.Answers.{checked};
ghost use Rattle.rules.specs.Board.{board_checks};
ghost use Rattle.rules.specs.ForcedRun.{run_checks};
ghost use Rattle.rules.specs.declared.Offset.{Offset};
ghost use Rattle.rules.specs.Promises.{board, board_before, board_after, panel, RunsOut};

use board_planes::{check_cells, check_lengths};
use board_run::run_out;
use check_sizes::tile_number;
use fit_forced::bounds_fit;
use places::check_place;
use rules::{BoundingBox, Offset, RanOut, Refusal, World};

// The checks of the planes and tiles.
fn check_board(
    pieces: &[u32],
    weights: &[u32],
    counts: &[u32],
    rows: usize,
    cols: usize,
    tiles: &[u8],
    count: u32,
) -> Result<(), Refusal>
    ensures { (offset : Offset) → result ≡ checked (board_checks (panel rows cols tiles.now offset) count (board pieces.now weights.now counts.now)) }
{
    check_lengths(pieces, weights, counts, rows, cols)?;
    let Ok(n) = tile_number(tiles) else {
        return Err(Refusal::Length);
    };
    check_cells(pieces, weights, counts, tiles, count, n)
}

// The checks of the call's input.
fn check_run(
    pieces: &[u32],
    weights: &[u32],
    counts: &[u32],
    rows: usize,
    cols: usize,
    tiles: &[u8],
    count: u32,
    place: World,
    offset: Offset,
    bounds: Option<BoundingBox>,
    budget: usize,
) -> Result<(), Refusal>
    ensures { result ≡ checked (run_checks (panel rows cols tiles.now offset) count (board pieces.now weights.now counts.now) place bounds budget) }
{
    if budget > rules::MAX_BUDGET {
        return Err(Refusal::Shape);
    }
    check_board(pieces, weights, counts, rows, cols, tiles, count)?;
    check_place(rows, cols, place, offset)?;
    if !bounds_fit(bounds) {
        return Err(Refusal::Place);
    }
    Ok(())
}

// Lays what is forced round a place, and what is forced round each piece laid so, until nothing waits, as many entries were taken as the
// budget has, or more places wait than the queue has room for. Answers how it ended, how many entries were taken and how many laid.
pub fn forced_run(
    pieces: &mut [u32],
    weights: &mut [u32],
    counts: &mut [u32],
    rows: usize,
    cols: usize,
    tiles: &[u8],
    count: u32,
    place: World,
    offset: Offset,
    bounds: Option<BoundingBox>,
    budget: usize,
) -> Result<RanOut, Refusal>
    ensures { RunsOut (panel rows cols tiles.now offset) count place bounds budget
        (board_before pieces weights counts) result (board_after pieces weights counts) }
{
    check_run(
        pieces, weights, counts, rows, cols, tiles, count, place, offset, bounds, budget,
    )?;
    Ok(run_out(
        pieces, weights, counts, rows, cols, tiles, count, place, offset, bounds, budget,
    ))
}
