// The tests of document 01's refusal table that many calls share: sides, lengths and counts. Each answers whether its input is in order.
#![tactic(auto)]

ghost use Rattle.std.specs.Prelude.{◌≡◌, true, ◌*◌};
ghost use Rattle.base.specs.Counting.{within};
ghost use Rattle.rules.specs.Tests.{board_sides, sample_sides, has_length, tile_number_fits, whole_tiles, colour_count};
ghost use Rattle.rules.specs.Tiles.{tiles_counted};

use rules::Refusal;

fn within_bounds(least: usize, most: usize, n: usize) -> bool
    ensures { result ≡ within least most n }
{
    least <= n && n <= most
}

pub fn board_sides(rows: usize, cols: usize) -> bool
    ensures { result ≡ board_sides rows cols }
{
    within_bounds(1, rules::MAX_BOARD_SIDE, rows) && within_bounds(1, rules::MAX_BOARD_SIDE, cols)
}

pub fn sample_sides(rows: usize, cols: usize) -> bool
    ensures { result ≡ sample_sides rows cols }
{
    within_bounds(1, rules::MAX_SAMPLE_SIDE, rows) && within_bounds(1, rules::MAX_SAMPLE_SIDE, cols)
}

// How many cells a board has whose sides are in bounds.
pub fn cells_of(rows: usize, cols: usize) -> usize
    requires { board_sides rows cols ≡ true }
    ensures { result ≡ rows * cols }
{
    rows * cols
}

// Whatever the plane holds.
pub fn has_length<T>(plane: &[T], n: usize) -> bool
    ensures { result ≡ has_length plane.now n }
{
    plane.len() == n
}

pub fn tile_number_fits(n: usize) -> bool
    ensures { result ≡ tile_number_fits n }
{
    within_bounds(1, rules::MAX_TILES, n)
}

pub fn whole_tiles(tiles: &[u8]) -> bool
    ensures { result ≡ whole_tiles tiles.now }
{
    tiles.len() % rules::TILE_CELLS == 0 && tile_number_fits(tiles.len() / rules::TILE_CELLS)
}

// How many tiles a list has.
pub fn tile_number(tiles: &[u8]) -> Result<usize, Refusal>
    ensures { result ≡ tiles_counted tiles.now }
{
    if !whole_tiles(tiles) {
        return Err(Refusal::Length);
    }
    Ok(tiles.len() / rules::TILE_CELLS)
}

pub fn colour_count(count: u32) -> bool
    ensures { result ≡ colour_count count }
{
    1 <= count && count <= rules::MAX_COLOURS
}
