// Document 02, request 1: the checks of a widening, in the order of document 01's numbers. Pads are any
// numbers: a sum is taken only where the sides that they make are board sides. Of the larger planes only the lengths are read.
#![tactic(auto)]

ghost use Rattle.std.specs.Prelude.{◌≡◌};
ghost use Rattle.rules.specs.Answers.{checked};
ghost use Rattle.rules.specs.Widening.{widen_checks};
ghost use Rattle.rules.specs.Promises.{board, panel};

use board_planes::{check_cells, check_planes};
use check_sizes::{board_sides, cells_of, tile_number};
use copy_checks::{larger_cells, larger_sides};
use place_extension::offset_after;
use places::offset_fits;
use rules::{Offset, Pads, Refusal};

pub fn check_widen(
    widepieces: &[u32],
    wideweights: &[u32],
    widecounts: &[u32],
    pieces: &[u32],
    weights: &[u32],
    counts: &[u32],
    rows: usize,
    cols: usize,
    pads: Pads,
    tiles: &[u8],
    count: u32,
    offset: Offset,
) -> Result<(), Refusal>
    ensures { result ≡ checked (widen_checks (panel rows cols tiles.now offset) count (board pieces.now weights.now counts.now)
        pads (board widepieces.now wideweights.now widecounts.now)) }
{
    if !board_sides(rows, cols) {
        return Err(Refusal::Shape);
    }
    if !larger_sides(rows, cols, pads) {
        return Err(Refusal::Shape);
    }
    check_planes(pieces, weights, counts, cells_of(rows, cols))?;
    let n = tile_number(tiles)?;
    let room = larger_cells(rows, cols, pads);
    check_planes(widepieces, wideweights, widecounts, room)?;
    check_cells(pieces, weights, counts, tiles, count, n)?;
    if !offset_fits(offset) {
        return Err(Refusal::Place);
    }
    if !offset_fits(offset_after(offset, pads)) {
        return Err(Refusal::Place);
    }
    Ok(())
}
