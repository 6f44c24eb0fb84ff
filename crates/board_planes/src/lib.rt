// The three planes of a board, pieces, weights and counts: the checks that the calls on a board share, and a plane filled with one value.
#![tactic(auto)]

ghost use Rattle.std.specs.Prelude.{◌≡◌, ◌≤◌, ◌<◌, length};
ghost use Rattle.base.specs.Tables.{tab};
ghost use Rattle.rules.specs.Answers.{checked};
ghost use Rattle.rules.specs.Bounds.{max_cells, max_tiles};
ghost use Rattle.rules.specs.Grid.{entry_of};
ghost use Rattle.rules.specs.Board.{plane_lengths, board_lengths, board_contents, laying_checks, lifting_checks};
ghost use Rattle.rules.specs.Promises.{before, after, board};

use check_contents::{check_colours, no_word_above};
use check_sizes::{board_sides, cells_of, has_length};
use rules::{Cell, Refusal};

// LENGTH of the three planes of a board of so many cells.
pub fn check_planes(
    pieces: &[u32],
    weights: &[u32],
    counts: &[u32],
    cells: usize,
) -> Result<(), Refusal>
    ensures { result ≡ checked (plane_lengths cells (board pieces.now weights.now counts.now)) }
{
    if !has_length(pieces, cells) {
        return Err(Refusal::Length);
    }
    if !has_length(weights, cells) {
        return Err(Refusal::Length);
    }
    if !has_length(counts, cells) {
        return Err(Refusal::Length);
    }
    Ok(())
}

// SHAPE and LENGTH of the three planes.
pub fn check_lengths(
    pieces: &[u32],
    weights: &[u32],
    counts: &[u32],
    rows: usize,
    cols: usize,
) -> Result<(), Refusal>
    ensures { result ≡ checked (board_lengths rows cols (board pieces.now weights.now counts.now)) }
{
    if !board_sides(rows, cols) {
        return Err(Refusal::Shape);
    }
    check_planes(pieces, weights, counts, cells_of(rows, cols))
}

// COUNT, and CELL of all that is read; n is the number of tiles.
pub fn check_cells(
    pieces: &[u32],
    weights: &[u32],
    counts: &[u32],
    tiles: &[u8],
    count: u32,
    n: usize,
) -> Result<(), Refusal>
    requires { n ≤ max_tiles }
    ensures { result ≡ checked (board_contents tiles.now count (board pieces.now weights.now counts.now) n) }
{
    check_colours(tiles, count, pieces)?;
    if !no_word_above(weights, rules::MAX_WEIGHT) {
        return Err(Refusal::Cell);
    }
    if !no_word_above(counts, n as u32) {
        return Err(Refusal::Cell);
    }
    Ok(())
}

// TYPE and TAKEN of a lay on a cell of the board.
pub fn check_laying(
    pieces: &[u32],
    cols: usize,
    cell: Cell,
    count: u32,
    colour: u32,
) -> Result<(), Refusal>
    requires { (entry_of cols cell < length pieces.now) × (length pieces.now ≤ max_cells) }
    ensures { result ≡ checked (laying_checks pieces.now (entry_of cols cell) count colour) }
{
    if !(1..=count).contains(&colour) {
        return Err(Refusal::Type);
    }
    let k = cell.0 * cols + cell.1;
    if rules::BARE_PIECE < pieces[k] {
        return Err(Refusal::Taken);
    }
    Ok(())
}

// BARE of a lift on a cell of the board.
pub fn check_lifting(pieces: &[u32], cols: usize, cell: Cell) -> Result<(), Refusal>
    requires { (entry_of cols cell < length pieces.now) × (length pieces.now ≤ max_cells) }
    ensures { result ≡ checked (lifting_checks pieces.now (entry_of cols cell)) }
{
    let k = cell.0 * cols + cell.1;
    if pieces[k] <= rules::BARE_PIECE {
        return Err(Refusal::Bare);
    }
    Ok(())
}

pub fn fill(plane: &mut [u32], value: u32)
    ensures { after plane ≡ tab (length (before plane)) (λ k. value) }
{
    plane.fill(value);
}
