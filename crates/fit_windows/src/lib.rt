// Document 01, "Fit", for calls that have made the checks: how many tiles fit a region, and which colours fit a cell, by its nine windows.
#![tactic(auto)]

ghost use Rattle.std.specs.Prelude.{◌≡◌, not, ◌+◌, ◌*◌, ◌^◌, ◌<◌, ◌≤◌, eqb, length, Ok};
ghost use Rattle.rules.specs.Grid.{cell_at, entry_of, flat};
ghost use Rattle.rules.specs.Bounds.{max_colours, max_tiles};
ghost use Rattle.rules.specs.Tests.{tiles_in};
ghost use Rattle.rules.specs.Sets.{bits_of};
ghost use Rattle.rules.specs.Fit.{pattern, fit_count, serves, has_fitting, lists, found_at};
ghost use Rattle.fit_pattern.specs.Patch.{shown_in, window_of};
ghost use Rattle.fit_pattern.specs.Ready.{CellOn, Painted};
ghost use Rattle.fit_windows.specs.Ready.{Countable, Ready, Coloured};
ghost use Rattle.fit_windows.specs.Kept.{Keeps, allows_in};

use rules::{Cell, Refusal, TileBitset};

// The place that the cell has in each of its nine windows, in the text's order: the window centred on the cell, then those centred
// up, left, right and down of it, then on the corners row by row.
const WINDOW_ORDER: [u8; 9] = [4, 7, 5, 3, 1, 8, 6, 2, 0];

// How many tiles fit the region: all of them where it is bare.
fn fit_count(tiles: &[u8], region: &[u8; rules::TILE_CELLS]) -> u32
    requires tiles_bound { tiles_in tiles.now ≤ max_tiles }
    requires painted { Painted region.now }
    ensures { result ≡ fit_count tiles.now (shown_in region.now 3 0) }
{
    let last = tiles.len() / rules::TILE_CELLS;
    if fit_pattern::is_bare(region, 3, 0) {
        return last as u32;
    }
    let mut count = 0;
    for n in 0..last {
        count += u32::from(fit_pattern::tile_fits(tiles, n, region, 3, 0));
    }
    count
}

// The number of tiles that fit the region that starts at (row, col), for calls that have made the checks.
pub fn fit_count_at(
    pieces: &[u32],
    rows: usize,
    cols: usize,
    tiles: &[u8],
    row: usize,
    col: usize,
) -> u32
    requires countable { Countable pieces.now rows cols tiles.now }
    requires cell_on { CellOn rows cols row col }
    ensures { result ≡ fit_count tiles.now (pattern (flat rows cols) pieces.now (entry_of cols (cell_at row col))) }
{
    let region = fit_pattern::region_at(pieces, rows, cols, row, col);
    fit_count(tiles, &region)
}

// The set without colour t.
fn without_colour(bits: u32, t: u32) -> u32
    requires { t ≤ max_colours }
    ensures { Keeps bits (λ u. not (eqb u t)) result }
{
    let there = bitset_colours::common_colours(bits, bitset_colours::with_colour(0, t));
    bits - there
}

// What is missing still once tile n was tried on the window that has the cell at place q, where it stands in the patch: a tile that fits
// it serves the colour that the tile has at place q.
fn missing_past(
    missing: u32,
    tiles: &[u8],
    n: usize,
    patch: &[u8; fit_pattern::PATCH_CELLS],
    q: usize,
) -> u32
    requires n_in_bounds { n * 9 + 9 ≤ length tiles.now }
    requires coloured { Coloured tiles.now }
    requires painted { Painted patch.now }
    requires q_bound { q < 9 }
    ensures { Keeps missing (λ t. not (serves tiles.now (window_of patch.now q) q t n)) result }
{
    let at = fit_pattern::window_in(q);
    if !fit_pattern::tile_fits(tiles, n, patch, fit_pattern::PATCH_SIDE, at) {
        return missing;
    }
    without_colour(missing, tiles[n * rules::TILE_CELLS + q] as u32)
}

// Those of the colours left that a fitting tile has at place q. The tiles are walked until no colour is missing.
fn window_colours(left: u32, tiles: &[u8], patch: &[u8; fit_pattern::PATCH_CELLS], q: usize) -> u32
    requires left_bound { left < 2 ^ max_colours }
    requires coloured { Coloured tiles.now }
    requires painted { Painted patch.now }
    requires q_bound { q < 9 }
    ensures { Keeps left (has_fitting tiles.now (window_of patch.now q) q) result }
{
    let end = tiles.len() / rules::TILE_CELLS;
    let mut missing = left;
    for n in 0..end {
        if missing == 0 {
            return left;
        }
        missing = missing_past(missing, tiles, n, patch, q);
    }
    left - missing
}

// Those of the colours left that the window which has the cell (row, col) at place q allows.
fn narrowed(
    left: u32,
    patch: &[u8; fit_pattern::PATCH_CELLS],
    tiles: &[u8],
    row: usize,
    col: usize,
    q: usize,
) -> u32
    requires left_bound { left < 2 ^ max_colours }
    requires painted { Painted patch.now }
    requires coloured { Coloured tiles.now }
    requires q_bound { q < 9 }
    ensures { Keeps left (λ t. allows_in tiles.now patch.now row col t q) result }
{
    if row < q / 3 {
        return left;
    }
    if col < q % 3 {
        return left;
    }
    window_colours(left, tiles, patch, q)
}

// The colours listed at (row, col), as bits. The cells round it are read once, and each window is tested in that patch. The windows are
// left as soon as no colour is left.
fn viable_colours(
    pieces: &[u32],
    rows: usize,
    cols: usize,
    tiles: &[u8],
    count: u32,
    row: usize,
    col: usize,
) -> u32
    requires ready { Ready pieces.now rows cols tiles.now count }
    requires cell_on { CellOn rows cols row col }
    ensures { result ≡ bits_of count (lists (flat rows cols) tiles.now pieces.now (entry_of cols (cell_at row col))) }
{
    let patch = fit_pattern::patch_at(pieces, rows, cols, row, col);
    let mut left = bitset_colours::all_colours(count);
    for q in &WINDOW_ORDER {
        if left == 0 {
            return 0;
        }
        left = narrowed(left, &patch, tiles, row, col, usize::from(*q));
    }
    left
}

// The colours listed at a cell, for calls that have made the checks: always a set, in the answer that the calls give too.
pub fn viable_tiles_at(
    pieces: &[u32],
    rows: usize,
    cols: usize,
    tiles: &[u8],
    count: u32,
    cell: Cell,
) -> Result<TileBitset, Refusal>
    requires ready { Ready pieces.now rows cols tiles.now count }
    requires cell_on { CellOn rows cols cell.0 cell.1 }
    ensures { result ≡ Ok (found_at (flat rows cols) tiles.now pieces.now count (entry_of cols cell)) }
{
    let bits = viable_colours(pieces, rows, cols, tiles, count, cell.0, cell.1);
    Ok(TileBitset { bits, size: count })
}
