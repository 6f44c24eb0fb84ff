// Document 01, "Tiles": the windows of a sample and their forms, turned and mirrored. A tile is nine bytes, row by row.
// The text's spatial/tiles.rs has them in `extract_tiles`, `rotate_90` and `reflect`.
#![tactic(auto)]

ghost use Rattle.std.specs.Prelude.{◌≡◌, ◌+◌, ◌<◌, ◌≤◌};
ghost use Rattle.rules.specs.Bounds.{max_sample_side, max_tiles};
ghost use Rattle.rules.specs.Tiles.{sample_cell, starts_along, window_tile, rotated, reflected, turned, turns, forms, form, variant, variants};
ghost use Rattle.tile_forms.specs.Sample.{Sample};

const TILE_SIDE: usize = 3;

// A cell of the sample, and 0 past it.
fn sample_cell(sample: &[u8], rows: usize, cols: usize, r: usize, c: usize) -> u8
    requires { Sample sample.now rows cols }
    ensures { result ≡ sample_cell sample.now rows cols r c }
{
    if r < rows && c < cols {
        sample[r * cols + c]
    } else {
        0
    }
}

// How many windows start along a side.
fn starts_along(side: usize) -> usize
    ensures { result ≡ starts_along side }
{
    side.saturating_sub(TILE_SIDE) + 1
}

// The tile of the window that starts at (r, c).
fn window_tile(
    sample: &[u8],
    rows: usize,
    cols: usize,
    r: usize,
    c: usize,
) -> [u8; rules::TILE_CELLS]
    requires { Sample sample.now rows cols × (r ≤ max_tiles) × (c ≤ max_tiles) }
    ensures { result ≡ window_tile sample.now rows cols r c }
{
    let mut tile = [0u8; rules::TILE_CELLS];
    for (k, cell) in tile.iter_mut().enumerate() {
        *cell = sample_cell(sample, rows, cols, r + k / TILE_SIDE, c + k % TILE_SIDE);
    }
    tile
}

// Old (2-j, i) at (i, j).
pub fn rotate_90(old: [u8; rules::TILE_CELLS]) -> [u8; rules::TILE_CELLS]
    ensures { result ≡ rotated old }
{
    [
        old[6], old[3], old[0], old[7], old[4], old[1], old[8], old[5], old[2],
    ]
}

// Old (i, 2-j) at (i, j).
pub fn reflect(tile: [u8; rules::TILE_CELLS]) -> [u8; rules::TILE_CELLS]
    ensures { result ≡ reflected tile }
{
    [
        tile[2], tile[1], tile[0], tile[5], tile[4], tile[3], tile[8], tile[7], tile[6],
    ]
}

// n successive rotations.
fn rotate_times(n: usize, tile: [u8; rules::TILE_CELLS]) -> [u8; rules::TILE_CELLS]
    requires { n < 4 }
    ensures { result ≡ turned n tile }
{
    // A `for` that rotates a local array in place was tried: the borrow checker does not cover it.
    match n {
        0 => tile,
        1 => rotate_90(tile),
        2 => rotate_90(rotate_90(tile)),
        _ => rotate_90(rotate_90(rotate_90(tile))),
    }
}

fn turns_of(rotations: bool) -> usize
    ensures { result ≡ turns rotations }
{
    if rotations { 4 } else { 1 }
}

fn forms_of(rotations: bool, reflections: bool) -> usize
    ensures { result ≡ forms rotations reflections }
{
    let n = turns_of(rotations);
    if reflections { n + n } else { n }
}

// Form i of a tile: the turned ones first, then the reflection of each in that order.
fn form_of(rotations: bool, i: usize, tile: [u8; rules::TILE_CELLS]) -> [u8; rules::TILE_CELLS]
    requires { i < turns rotations + turns rotations }
    ensures { result ≡ form rotations i tile }
{
    let n = turns_of(rotations);
    if i < n {
        return rotate_times(i, tile);
    }
    reflect(rotate_times(i - n, tile))
}

// Variant v of a sample: the windows row by row, the forms of one together.
pub fn variant_of(
    sample: &[u8],
    rows: usize,
    cols: usize,
    rotations: bool,
    reflections: bool,
    v: usize,
) -> [u8; rules::TILE_CELLS]
    requires { Sample sample.now rows cols × (v ≤ max_tiles) }
    ensures { result ≡ variant sample.now rows cols rotations reflections v }
{
    let n = forms_of(rotations, reflections);
    let wide = starts_along(cols);
    let window = v / n;
    let tile = window_tile(sample, rows, cols, window / wide, window % wide);
    form_of(rotations, v % n, tile)
}

// How many variants there are, equal ones counted.
pub fn variants_of(rows: usize, cols: usize, rotations: bool, reflections: bool) -> usize
    requires { (rows ≤ max_sample_side) × (cols ≤ max_sample_side) }
    ensures { (result ≡ variants rows cols rotations reflections) × (result ≤ max_tiles) }
{
    starts_along(rows) * starts_along(cols) * forms_of(rotations, reflections)
}
