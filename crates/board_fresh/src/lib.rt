// Fresh, which document 01 adds: the three planes of a board on which no piece stands. A refused call changes none of them.
#![tactic(auto)]

ghost use Rattle.rules.specs.Promises.{board_before, board_after, Freshens};

use board_planes::{check_lengths, fill};
use check_sizes::tile_number_fits;
use rules::Refusal;

// Pieces 1, weights 1, counts the number of tiles.
pub fn fresh(
    pieces: &mut [u32],
    weights: &mut [u32],
    counts: &mut [u32],
    rows: usize,
    cols: usize,
    tiles: usize,
) -> Result<(), Refusal>
    ensures { Freshens rows cols tiles (board_before pieces weights counts) result (board_after pieces weights counts) }
{
    check_lengths(pieces, weights, counts, rows, cols)?;
    if !tile_number_fits(tiles) {
        return Err(Refusal::Length);
    }
    fill(pieces, rules::BARE_PIECE);
    fill(weights, 1);
    fill(counts, tiles as u32);
    Ok(())
}
