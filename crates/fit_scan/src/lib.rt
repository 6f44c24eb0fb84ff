// Document 01, "Fit", the dead end: the text's `check_for_contradiction`. A cell that is laid, or has no weight above 1, is not listed.
#![tactic(auto)]

ghost use Rattle.std.specs.Prelude.{◌≡◌};
ghost use Rattle.rules.specs.Answers.{checked};
ghost use Rattle.rules.specs.Grid.{entry_of, flat};
ghost use Rattle.rules.specs.Forced.{dead_at, scan_lengths, scan_checks, dead_end};
ghost use Rattle.fit_pattern.specs.Ready.{CellOn};
ghost use Rattle.fit_scan.specs.Scanned.{Scannable, scanned};

use rules::{Cell, Refusal};

// The checks of the sides and lengths.
fn check_lengths(
    pieces: &[u32],
    weights: &[u32],
    rows: usize,
    cols: usize,
    tiles: &[u8],
) -> Result<(), Refusal>
    ensures { result ≡ checked (scan_lengths pieces.now weights.now rows cols tiles.now) }
{
    if !check_sizes::board_sides(rows, cols) {
        return Err(Refusal::Shape);
    }
    let cells = check_sizes::cells_of(rows, cols);
    if !check_sizes::has_length(pieces, cells) {
        return Err(Refusal::Length);
    }
    if !check_sizes::has_length(weights, cells) {
        return Err(Refusal::Length);
    }
    if !check_sizes::whole_tiles(tiles) {
        return Err(Refusal::Length);
    }
    Ok(())
}

// The checks of the scan's input.
pub fn check_scan(
    pieces: &[u32],
    weights: &[u32],
    rows: usize,
    cols: usize,
    tiles: &[u8],
    count: u32,
) -> Result<(), Refusal>
    ensures { result ≡ checked (scan_checks pieces.now weights.now rows cols tiles.now count) }
{
    check_lengths(pieces, weights, rows, cols, tiles)?;
    check_contents::check_colours(tiles, count, pieces)?;
    if !check_contents::no_word_above(weights, rules::MAX_WEIGHT) {
        return Err(Refusal::Cell);
    }
    Ok(())
}

// Whether the cell is bare, has weight above 1 and lists no colour. The checks are made, so the listing is never a refusal; the `else` that
// `let` asks for says "no dead end here" and is not reached.
fn is_dead_end(
    pieces: &[u32],
    weights: &[u32],
    rows: usize,
    cols: usize,
    tiles: &[u8],
    count: u32,
    cell: Cell,
) -> bool
    requires scannable { Scannable pieces.now weights.now rows cols tiles.now count }
    requires cell_on { CellOn rows cols cell.0 cell.1 }
    ensures { result ≡ dead_at (flat rows cols) tiles.now pieces.now weights.now count (entry_of cols cell) }
{
    let at = cell.0 * cols + cell.1;
    if pieces[at] > rules::BARE_PIECE {
        return false;
    }
    if weights[at] <= 1 {
        return false;
    }
    let Ok(set) = fit_windows::viable_tiles_at(pieces, rows, cols, tiles, count, cell) else {
        return false;
    };
    bitset_colours::no_colour(set.bits)
}

// The dead end, if there is one, for calls that have made the checks.
pub fn first_dead_end(
    pieces: &[u32],
    weights: &[u32],
    rows: usize,
    cols: usize,
    tiles: &[u8],
    count: u32,
) -> Option<Cell>
    requires { Scannable pieces.now weights.now rows cols tiles.now count }
    ensures { result ≡ scanned flat pieces.now weights.now rows cols tiles.now count }
{
    let mut found = None;
    'scan: for row in 0..rows {
        for col in 0..cols {
            let cell = Cell(row, col);
            if is_dead_end(pieces, weights, rows, cols, tiles, count, cell) {
                found = Some(cell);
                break 'scan;
            }
        }
    }
    found
}

// The first cell, row by row, that is bare, has weight above 1 and lists no colour.
pub fn check_for_contradiction(
    pieces: &[u32],
    weights: &[u32],
    rows: usize,
    cols: usize,
    tiles: &[u8],
    count: u32,
) -> Result<Option<Cell>, Refusal>
    ensures { result ≡ dead_end flat pieces.now weights.now rows cols tiles.now count }
{
    check_scan(pieces, weights, rows, cols, tiles, count)?;
    Ok(first_dead_end(pieces, weights, rows, cols, tiles, count))
}
