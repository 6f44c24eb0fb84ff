// Document 01, "Fit": how many tiles fit a region, and which colours fit a cell. The text's algorithm/feasibility.rs and the
// listing of algorithm/selection.rs, by the direct fit test: the calls, which make the checks.
#![tactic(auto)]

ghost use Rattle.std.specs.Prelude.{◌≡◌, ◌<◌, ◌≤◌, length};
ghost use Rattle.rules.specs.Answers.{checked};
ghost use Rattle.rules.specs.Bounds.{max_tiles};
ghost use Rattle.rules.specs.Grid.{on_grid, flat};
ghost use Rattle.rules.specs.Fit.{pieces_checks, listing, region_count};
ghost use Rattle.rules.specs.Scores.{fraction, fraction_checks, fraction_at};

use rules::{Cell, Offset, Refusal, TileBitset, World};

// The checks of pieces and tiles.
pub fn check_pieces(
    pieces: &[u32],
    rows: usize,
    cols: usize,
    tiles: &[u8],
    count: u32,
) -> Result<(), Refusal>
    ensures { result ≡ checked (pieces_checks pieces.now rows cols tiles.now count) }
{
    if !check_sizes::board_sides(rows, cols) {
        return Err(Refusal::Shape);
    }
    if !check_sizes::has_length(pieces, check_sizes::cells_of(rows, cols)) {
        return Err(Refusal::Length);
    }
    if !check_sizes::whole_tiles(tiles) {
        return Err(Refusal::Length);
    }
    check_contents::check_colours(tiles, count, pieces)
}

// The colours that fit at a place.
pub fn compute_viable_tiles_at_position(
    pieces: &[u32],
    rows: usize,
    cols: usize,
    tiles: &[u8],
    count: u32,
    place: World,
    offset: Offset,
) -> Result<TileBitset, Refusal>
    ensures { result ≡ listing flat pieces.now rows cols tiles.now count place offset }
{
    check_pieces(pieces, rows, cols, tiles, count)?;
    places::check_place(rows, cols, place, offset)?;
    fit_windows::viable_tiles_at(
        pieces,
        rows,
        cols,
        tiles,
        count,
        places::cell_of(place, offset),
    )
}

fn on_grid(rows: usize, cols: usize, cell: Cell) -> bool
    ensures { result ≡ on_grid rows cols cell }
{
    cell.0 < rows && cell.1 < cols
}

// How many tiles fit the region that starts at a cell; past the edge it is bare.
pub fn count_fitting(
    pieces: &[u32],
    rows: usize,
    cols: usize,
    tiles: &[u8],
    count: u32,
    start: Cell,
) -> Result<usize, Refusal>
    ensures { result ≡ region_count flat pieces.now rows cols tiles.now count start }
{
    check_pieces(pieces, rows, cols, tiles, count)?;
    if !on_grid(rows, cols, start) {
        return Err(Refusal::Place);
    }
    Ok(fit_windows::fit_count_at(pieces, rows, cols, tiles, start.0, start.1) as usize)
}

fn check_fraction(
    counts: &[u32],
    rows: usize,
    cols: usize,
    tiles: usize,
    cell: Cell,
) -> Result<(), Refusal>
    ensures { result ≡ checked (fraction_checks counts.now rows cols tiles cell) }
{
    if !check_sizes::board_sides(rows, cols) {
        return Err(Refusal::Shape);
    }
    if !check_sizes::has_length(counts, check_sizes::cells_of(rows, cols)) {
        return Err(Refusal::Length);
    }
    if !check_sizes::tile_number_fits(tiles) {
        return Err(Refusal::Length);
    }
    if !check_contents::no_word_above(counts, tiles as u32) {
        return Err(Refusal::Cell);
    }
    if !on_grid(rows, cols, cell) {
        return Err(Refusal::Place);
    }
    Ok(())
}

// One rounded division.
fn fraction_of(counts: &[u32], tiles: usize, k: usize) -> f64
    requires { (k < length counts.now) × (tiles ≤ max_tiles) }
    ensures { result ≡ fraction counts.now tiles k }
{
    counts[k] as f64 / tiles as f64
}

// The share of the tiles that fits at a cell, by its count.
pub fn get_fraction(
    counts: &[u32],
    rows: usize,
    cols: usize,
    tiles: usize,
    cell: Cell,
) -> Result<f64, Refusal>
    ensures { result ≡ fraction_at counts.now rows cols tiles cell }
{
    check_fraction(counts, rows, cols, tiles, cell)?;
    Ok(fraction_of(counts, tiles, cell.0 * cols + cell.1))
}
