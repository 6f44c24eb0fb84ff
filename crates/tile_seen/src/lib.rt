// Whether a tile is among those kept: the text's sorted set `seen`, as buckets of chained tiles over the caller's list. `heads` has for
// each bucket one more than the number of its last tile, `nexts` for each tile one more than that of the last before it in its bucket; 0:
// none. They are two arrays, since one is counted by buckets and the other by tiles; nothing is allocated.
#![tactic(auto)]

ghost use Rattle.std.specs.Prelude.{◌≡◌, ◌<◌, get_or};
ghost use Rattle.rules.specs.Bounds.{max_tiles};
ghost use Rattle.rules.specs.Tests.{tiles_in};
ghost use Rattle.rules.specs.Promises.{before, after};
ghost use Rattle.rules.specs.Tiles.{same_tile, has_tile};
ghost use Rattle.tile_seen.specs.Chains.{buckets, bucket_of, Chained, Notes};

// Odd, and such that samples of two to thirty colours are spread well: about one comparison a tile (31 took up to four).
const SPREAD: usize = 61;

pub const BUCKETS: usize = 4096;

pub fn bucket_of(tile: &[u8; rules::TILE_CELLS]) -> usize
    ensures { (result ≡ bucket_of (λ k. get_or tile.now k 0)) × (result < buckets) }
{
    let mut bucket = 0;
    for cell in tile {
        bucket = (bucket * SPREAD + usize::from(*cell)) % BUCKETS;
    }
    bucket
}

// Tile n of a list equals a tile. The comparison leaves at the first cell that differs.
fn same_tile(tiles: &[u8], n: usize, tile: &[u8; rules::TILE_CELLS]) -> bool
    requires { n < tiles_in tiles.now }
    ensures { result ≡ same_tile tiles.now tile.now n }
{
    let at = n * rules::TILE_CELLS;
    for (k, cell) in tile.iter().enumerate() {
        if tiles[at + k] != *cell {
            return false;
        }
    }
    true
}

// Only the tiles of the same bucket are compared: an equal one is there if anywhere.
pub fn has_tile(
    tiles: &[u8],
    heads: &[u16; BUCKETS],
    nexts: &[u16; rules::MAX_TILES],
    tile: &[u8; rules::TILE_CELLS],
    bucket: usize,
) -> bool
    requires { Chained tiles.now heads.now nexts.now × (bucket ≡ bucket_of (λ k. get_or tile.now k 0)) × (bucket < buckets) }
    ensures { result ≡ has_tile tiles.now tile.now }
{
    let mut last = usize::from(heads[bucket]);
    // Along a chain, which no range counts.
    while last != 0 {
        let n = last - 1;
        if same_tile(tiles, n, tile) {
            return true;
        }
        last = usize::from(nexts[n]);
    }
    false
}

// Notes that tile n, of this bucket, was added to the list.
pub fn note_tile(
    heads: &mut [u16; BUCKETS],
    nexts: &mut [u16; rules::MAX_TILES],
    n: usize,
    bucket: usize,
)
    requires { (n < max_tiles) × (bucket < buckets) }
    ensures { Notes n bucket (before heads) (before nexts) (after heads) (after nexts) }
{
    nexts[n] = heads[bucket];
    heads[bucket] = (n + 1) as u16;
}
