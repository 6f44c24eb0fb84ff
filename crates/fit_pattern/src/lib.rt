// The patch of cells round a cell, the 3x3 pattern of a region, and the test whether a tile fits a window. What is read is bytes, row by
// row: the colour laid at each place, 0 where it is bare or past the edge. A window is tested where it stands in what was read. The tiles
// are many and are tried one after the other, so the test reads eight cells at once.
#![tactic(auto)]

ghost use Rattle.std.specs.Prelude.{◌≡◌, ℕ, ◌+◌, ◌*◌, ◌<◌, ◌≤◌, eqb, length};
ghost use Rattle.base.specs.Counting.{every};
ghost use Rattle.base.specs.Tables.{tab};
ghost use Rattle.rules.specs.Grid.{flat, cell_at, entry_of, entry_or_past, colour_on};
ghost use Rattle.rules.specs.Fit.{pattern, fits_tile};
ghost use Rattle.fit_pattern.specs.Ready.{Readable, CellOn, Painted};
ghost use Rattle.fit_pattern.specs.Patch.{entry_back, patch_round, window_in, shown_in};
ghost use Rattle.fit_pattern.specs.Packed.{cells_from, packed, mask_of};

// A cell's nine windows reach two cells from it each way.
const REACH: usize = 2;

pub const PATCH_SIDE: usize = 5;

pub const PATCH_CELLS: usize = 25;

// The colour on the cell (r, c); 0 where it is bare or past the edge.
fn colour_at(pieces: &[u32], rows: usize, cols: usize, r: usize, c: usize) -> u8
    requires { Readable pieces.now rows cols }
    ensures { result ≡ colour_on pieces.now (entry_or_past rows cols (cell_at r c)) }
{
    if r >= rows {
        return 0;
    }
    if c >= cols {
        return 0;
    }
    (pieces[r * cols + c] - rules::BARE_PIECE) as u8
}

// The colours of so many cells, each by its number.
fn colours_of<const N: usize, F: Fn(usize) -> u8>(colour: F) -> [u8; N]
    requires { (i : ℕ) → i < N → F.pre colour i }
    ensures { (f : ℕ → ℕ) → ((i r : ℕ) → i < N → F.post colour i r → r ≡ f i) → result ≡ tab N f }
{
    let mut cells = [0u8; N];
    for (i, cell) in cells.iter_mut().enumerate() {
        *cell = colour(i);
    }
    cells
}

// The nine colours of the region that starts at (row, col).
pub fn region_at(
    pieces: &[u32],
    rows: usize,
    cols: usize,
    row: usize,
    col: usize,
) -> [u8; rules::TILE_CELLS]
    requires readable { Readable pieces.now rows cols }
    requires cell_on { CellOn rows cols row col }
    ensures { result ≡ tab 9 (pattern (flat rows cols) pieces.now (entry_of cols (cell_at row col))) }
{
    colours_of(|i| colour_at(pieces, rows, cols, row + i / 3, col + i % 3))
}

// The colour on the cell two up and two left of (r, c); 0 where it is bare or past any edge.
fn colour_back(pieces: &[u32], rows: usize, cols: usize, r: usize, c: usize) -> u8
    requires { Readable pieces.now rows cols }
    ensures { result ≡ colour_on pieces.now (entry_back rows cols (cell_at r c)) }
{
    if r < REACH {
        return 0;
    }
    if c < REACH {
        return 0;
    }
    colour_at(pieces, rows, cols, r - REACH, c - REACH)
}

// The 25 colours of the patch round (row, col).
pub fn patch_at(
    pieces: &[u32],
    rows: usize,
    cols: usize,
    row: usize,
    col: usize,
) -> [u8; PATCH_CELLS]
    requires readable { Readable pieces.now rows cols }
    requires cell_on { CellOn rows cols row col }
    ensures { result ≡ tab 25 (patch_round rows cols pieces.now (cell_at row col)) }
{
    colours_of(|j| {
        colour_back(
            pieces,
            rows,
            cols,
            row + j / PATCH_SIDE,
            col + j % PATCH_SIDE,
        )
    })
}

// Where the window that has the cell at place q starts in the patch.
pub fn window_in(q: usize) -> usize
    requires { q < 9 }
    ensures { result ≡ window_in q }
{
    (REACH - q / 3) * PATCH_SIDE + (REACH - q % 3)
}

// Two and three cells read as one number, the first the lowest.
fn pair(cells: &[u8], at: usize) -> u64
    requires { at + 2 ≤ length cells.now }
    ensures { result ≡ packed 2 (cells_from cells.now at) }
{
    let low = cells[at] as u64;
    let high = cells[at + 1] as u64;
    high * 0x100 + low
}

fn three(cells: &[u8], at: usize) -> u64
    requires { at + 3 ≤ length cells.now }
    ensures { result ≡ packed 3 (cells_from cells.now at) }
{
    let low = pair(cells, at);
    let high = cells[at + 2] as u64;
    high * 0x1_0000 + low
}

// The first eight cells of the window that starts at a cell, where a row has `width` cells: of a tile the compiler makes one load.
fn eight(cells: &[u8], width: usize, at: usize) -> u64
    requires { at + width + width + 3 ≤ length cells.now }
    ensures { result ≡ packed 8 (shown_in cells.now width at) }
{
    let top = three(cells, at);
    let middle = three(cells, at + width);
    let bottom = pair(cells, at + width + width);
    (bottom * 0x100_0000 + middle) * 0x100_0000 + top
}

// What a window's colour leaves of a tile's cell: all of it, or nothing where the window is bare.
fn mask_for(colour: u8) -> u8
    ensures { result ≡ mask_of colour }
{
    if colour == 0 { 0 } else { 255 }
}

// The same for the window's first eight cells: with 127 added each colour reaches the highest bit of its byte, a bare cell does not, and
// none goes past its byte.
fn eight_masks(cells: &[u8], width: usize, at: usize) -> u64
    requires width_in_bounds { at + width + width + 3 ≤ length cells.now }
    requires painted { Painted cells.now }
    ensures { result ≡ packed 8 (λ i. mask_of (shown_in cells.now width at i)) }
{
    let colours = eight(cells, width, at);
    let laid = (colours + 0x7f7f_7f7f_7f7f_7f7f) & 0x8080_8080_8080_8080;
    laid / 0x80 * 0xff
}

// Tile n fits the window that starts at cell `at` of what was read, whose rows have `width` cells: the tile's cells, where the window is
// laid, are the window's. Eight are compared at once; most tiles are left there. In a walk of the tiles the window's number and its masks
// are the same each time, and the compiler makes them once.
pub fn tile_fits(tiles: &[u8], n: usize, cells: &[u8], width: usize, at: usize) -> bool
    requires n_in_bounds { n * 9 + 9 ≤ length tiles.now }
    requires width_in_bounds { at + width + width + 3 ≤ length cells.now }
    requires painted { Painted cells.now }
    ensures { result ≡ fits_tile tiles.now (shown_in cells.now width at) n }
{
    let tile = n * rules::TILE_CELLS;
    let first = eight(cells, width, at);
    let last = cells[at + width + width + 2];
    if (eight(tiles, 3, tile) & eight_masks(cells, width, at)) != first {
        return false;
    }
    (tiles[tile + 8] & mask_for(last)) == last
}

// No piece lies in the window.
pub fn is_bare(cells: &[u8], width: usize, at: usize) -> bool
    requires { at + width + width + 3 ≤ length cells.now }
    ensures { result ≡ every 9 (λ i. eqb (shown_in cells.now width at i) 0) }
{
    let first = eight(cells, width, at) == 0;
    let last = cells[at + width + width + 2] == 0;
    first & last
}
