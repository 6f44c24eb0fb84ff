// Document 02, request 1: the board of a panel moves into three larger planes. Pieces and old weights go along with their cells; new
// cells are bare and are weighed by the standing pieces; all counts are counted anew. A refused call changes none of the planes.
#![tactic(auto)]

ghost use Rattle.std.specs.Prelude.{◌≡◌, ◌+◌, ◌*◌, ◌<◌, ◌≤◌, length};
ghost use Rattle.base.specs.Regions.{inside};
ghost use Rattle.base.specs.Tables.{tab};
ghost use Rattle.rules.specs.Bounds.{max_board_side};
ghost use Rattle.rules.specs.Grid.{flat};
ghost use Rattle.rules.specs.Places.{new_rows, new_cols};
ghost use Rattle.rules.specs.Board.{counts_of};
ghost use Rattle.rules.specs.Widening.{widened_pieces};
ghost use Rattle.rules.specs.Promises.{after, board, board_before, board_after, panel, Widens};
ghost use Rattle.fit_windows.specs.Ready.{Countable};
ghost use Rattle.copy_checks.specs.Laid.{Sized};
ghost use Rattle.board_widen.specs.Wide.{Weighable, weight_after};

use board_planes::fill;
use board_recount::recount_near;
use board_weigh::weight_at;
use board_widen_checks::check_widen;
use copy_rows::lay_rows;
use place_extension::offset_after;
use rules::{Cell, Offset, Pads, Refusal, Span, Spans};

// Pieces keep their wall coordinates; new cells are bare.
fn move_pieces(widepieces: &mut [u32], pieces: &[u32], rows: usize, cols: usize, pads: Pads)
    requires { Sized rows cols pads (length pieces.now) (length widepieces.old) }
    ensures { after widepieces ≡ widened_pieces rows cols pads pieces.now }
{
    fill(widepieces, rules::BARE_PIECE);
    lay_rows(widepieces, pieces, rows, cols, pads);
}

// The cell (row, col) of the larger grid is an old one.
fn is_old(rows: usize, cols: usize, pads: Pads, row: usize, col: usize) -> bool
    requires { (new_rows rows pads ≤ max_board_side) × (new_cols cols pads ≤ max_board_side) }
    ensures { result ≡ inside pads.left (pads.left + rows) pads.top (pads.top + cols) row col }
{
    (pads.left..pads.left + rows).contains(&row) && (pads.top..pads.top + cols).contains(&col)
}

// The weight of entry k of the larger plane: an old cell keeps its weight, a new one follows demand 3's formula from the pieces.
fn weight_after(
    widepieces: &[u32],
    weights: &[u32],
    rows: usize,
    cols: usize,
    pads: Pads,
    k: usize,
) -> u32
    requires weighable { Weighable widepieces.now weights.now rows cols pads }
    requires k_bound { k < new_rows rows pads * new_cols cols pads }
    ensures { result ≡ weight_after widepieces.now weights.now rows cols pads k }
{
    let tall = pads.left + rows + pads.right;
    let wide = pads.top + cols + pads.bottom;
    let row = k / wide;
    let col = k % wide;
    if is_old(rows, cols, pads, row, col) {
        weights[(row - pads.left) * cols + (col - pads.top)]
    } else {
        weight_at(widepieces, tall, wide, Cell(row, col))
    }
}

// No old cell is weighed, so that no work is done that the answer does not need.
fn move_weights(
    wideweights: &mut [u32],
    widepieces: &[u32],
    weights: &[u32],
    rows: usize,
    cols: usize,
    pads: Pads,
)
    requires weighable { Weighable widepieces.now weights.now rows cols pads }
    requires wideweights_len { length wideweights.old ≡ new_rows rows pads * new_cols cols pads }
    ensures { after wideweights
        ≡ tab (new_rows rows pads * new_cols cols pads) (weight_after widepieces.now weights.now rows cols pads) }
{
    for (k, weight) in wideweights.iter_mut().enumerate() {
        *weight = weight_after(widepieces, weights, rows, cols, pads, k);
    }
}

// Each count is the number of tiles that fit its region, or all tiles where the region passes the edge: none is taken from the old plane,
// since a region that passed the old edge may lie inside the new one.
fn count_all(
    widecounts: &mut [u32],
    widepieces: &[u32],
    rows: usize,
    cols: usize,
    pads: Pads,
    tiles: &[u8],
)
    requires countable { Countable widepieces.now (new_rows rows pads) (new_cols cols pads) tiles.now }
    requires pads_nonzero { 0 < new_cols cols pads }
    requires widecounts_len { length widecounts.old ≡ new_rows rows pads * new_cols cols pads }
    ensures { after widecounts ≡ counts_of (flat (new_rows rows pads) (new_cols cols pads)) tiles.now widepieces.now }
{
    let tall = pads.left + rows + pads.right;
    let wide = pads.top + cols + pads.bottom;
    let n = tiles.len() / rules::TILE_CELLS;
    fill(widecounts, n as u32);
    let all = Spans {
        rows: Span(0, tall),
        cols: Span(0, wide),
    };
    recount_near(widecounts, widepieces, tall, wide, tiles, all);
}

// The answer tells the new offset.
pub fn widen(
    widepieces: &mut [u32],
    wideweights: &mut [u32],
    widecounts: &mut [u32],
    pieces: &[u32],
    weights: &[u32],
    counts: &[u32],
    rows: usize,
    cols: usize,
    pads: Pads,
    tiles: &[u8],
    count: u32,
    offset: Offset,
) -> Result<Offset, Refusal>
    ensures { Widens (panel rows cols tiles.now offset) count pads (board pieces.now weights.now counts.now)
        (board_before widepieces wideweights widecounts) result (board_after widepieces wideweights widecounts) }
{
    check_widen(
        widepieces,
        wideweights,
        widecounts,
        pieces,
        weights,
        counts,
        rows,
        cols,
        pads,
        tiles,
        count,
        offset,
    )?;
    move_pieces(widepieces, pieces, rows, cols, pads);
    move_weights(wideweights, widepieces, weights, rows, cols, pads);
    count_all(widecounts, widepieces, rows, cols, pads, tiles);
    Ok(offset_after(offset, pads))
}
