// Lay and lift on a board, three lent planes, pieces, weights and counts. A refused call changes none of them. Places are wall
// coordinates; the offset leads to the cell. What the two share stands beneath them, but that each opens the answers of the number of
// tiles and of the spans itself, as document 01 has it.
#![tactic(auto)]

ghost use Rattle.rules.specs.Promises.{board_before, board_after, panel, Lays, Lifts};

use board_moves::{lay_at, lift_at};
use board_near::near_spans;
use board_planes::{check_cells, check_laying, check_lengths, check_lifting};
use check_sizes::tile_number;
use places::cell_of;
use rules::{Offset, Refusal, World};

// Stores the piece, adds 3 to weights at distance 0 or 1 and 1 at distance 2, and recounts.
pub fn lay(
    pieces: &mut [u32],
    weights: &mut [u32],
    counts: &mut [u32],
    rows: usize,
    cols: usize,
    tiles: &[u8],
    count: u32,
    place: World,
    offset: Offset,
    colour: u32,
) -> Result<(), Refusal>
    ensures { Lays (panel rows cols tiles.now offset) count place colour
        (board_before pieces weights counts) result (board_after pieces weights counts) }
{
    check_lengths(pieces, weights, counts, rows, cols)?;
    let Ok(n) = tile_number(tiles) else {
        return Err(Refusal::Length);
    };
    check_cells(pieces, weights, counts, tiles, count, n)?;
    let Ok(spans) = near_spans(rows, cols, place, offset) else {
        return Err(Refusal::Place);
    };
    let cell = cell_of(place, offset);
    check_laying(pieces, cols, cell, count, colour)?;
    lay_at(
        pieces, weights, counts, rows, cols, tiles, cell, spans, colour,
    );
    Ok(())
}

// Stores bare, subtracts what lay added, stopping at 0, and recounts.
pub fn lift(
    pieces: &mut [u32],
    weights: &mut [u32],
    counts: &mut [u32],
    rows: usize,
    cols: usize,
    tiles: &[u8],
    count: u32,
    place: World,
    offset: Offset,
) -> Result<(), Refusal>
    ensures { Lifts (panel rows cols tiles.now offset) count place
        (board_before pieces weights counts) result (board_after pieces weights counts) }
{
    check_lengths(pieces, weights, counts, rows, cols)?;
    let Ok(n) = tile_number(tiles) else {
        return Err(Refusal::Length);
    };
    check_cells(pieces, weights, counts, tiles, count, n)?;
    let Ok(spans) = near_spans(rows, cols, place, offset) else {
        return Err(Refusal::Place);
    };
    let cell = cell_of(place, offset);
    check_lifting(pieces, cols, cell)?;
    lift_at(pieces, weights, counts, rows, cols, tiles, cell, spans);
    Ok(())
}
