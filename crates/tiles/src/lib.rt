// The text's spatial/tiles.rs: every distinct 3x3 tile of a sample, in order of first appearance, into a store that the caller lends; and
// the set of a tile's colours.
#![tactic(auto)]

ghost use Rattle.std.specs.Prelude.{◌≡◌, ◌+◌, ◌*◌, ◌<◌, ◌≤◌, length, take};
ghost use Rattle.rules.specs.Answers.{checked};
ghost use Rattle.rules.specs.Bounds.{max_tiles};
ghost use Rattle.rules.specs.Promises.{before, after, Extracts};
ghost use Rattle.rules.specs.Tests.{tiles_in};
ghost use Rattle.rules.specs.Tiles.{extracted, sample_checks};
ghost use Rattle.tile_forms.specs.Sample.{Sample};
ghost use Rattle.tile_seen.specs.Chains.{Chained};
ghost use Rattle.tiles.specs.Adding.{Adds, Gathers};

use rules::Refusal;

mod membership;

pub use membership::convert_tile_to_membership_booleans;

// Adds a tile to the n tiles of the store, unless they have it or there is no room for it whole. Answers how many there are then.
fn add_tile(
    store: &mut [u8],
    heads: &mut [u16; tile_seen::BUCKETS],
    nexts: &mut [u16; rules::MAX_TILES],
    n: usize,
    tile: &[u8; rules::TILE_CELLS],
) -> Result<usize, Refusal>
    requires { (n ≤ tiles_in store.old) × (n < max_tiles) × (length tile.now ≡ 9) × Chained (take (n * 9) store.old) heads.old nexts.old }
    ensures { Adds (before store) n tile.now result (after store) (after heads) (after nexts) }
{
    let at = n * rules::TILE_CELLS;
    let bucket = tile_seen::bucket_of(tile);
    if tile_seen::has_tile(&store[..at], heads, nexts, tile, bucket) {
        return Ok(n);
    }
    if store.len() - at < rules::TILE_CELLS {
        return Err(Refusal::Room);
    }
    store[at..at + rules::TILE_CELLS].copy_from_slice(tile);
    tile_seen::note_tile(heads, nexts, n, bucket);
    Ok(n + 1)
}

// Gathers the distinct tiles of a sample that passed its checks, from the first variant on, so that the first of equal tiles is kept. The
// store is read no further than the tiles written to it.
fn gather(
    store: &mut [u8],
    source: &[u8],
    rows: usize,
    cols: usize,
    rotations: bool,
    reflections: bool,
) -> Result<usize, Refusal>
    requires { Sample source.now rows cols }
    ensures { Gathers (extracted source.now rows cols rotations reflections) (before store) result (after store) }
{
    let total = tile_forms::variants_of(rows, cols, rotations, reflections);
    let mut heads = [0u16; tile_seen::BUCKETS];
    let mut nexts = [0u16; rules::MAX_TILES];
    let mut n = 0;
    for v in 0..total {
        let tile = tile_forms::variant_of(source, rows, cols, rotations, reflections, v);
        n = add_tile(store, &mut heads, &mut nexts, n, &tile)?;
    }
    Ok(n)
}

fn check_sample(source: &[u8], rows: usize, cols: usize, count: u32) -> Result<(), Refusal>
    ensures { result ≡ checked (sample_checks source.now rows cols count) }
{
    if !check_sizes::sample_sides(rows, cols) {
        return Err(Refusal::Shape);
    }
    if !check_sizes::has_length(source, rows * cols) {
        return Err(Refusal::Length);
    }
    if !check_sizes::colour_count(count) {
        return Err(Refusal::Count);
    }
    if !check_contents::no_byte_above(source, count) {
        return Err(Refusal::Cell);
    }
    Ok(())
}

// Every distinct tile, turned and mirrored if asked, nine bytes each; answers their number. ROOM leaves the first tiles that fit whole;
// any other refusal touches nothing.
pub fn extract_tiles(
    source: &[u8],
    rows: usize,
    cols: usize,
    count: u32,
    rotations: bool,
    reflections: bool,
    store: &mut [u8],
) -> Result<usize, Refusal>
    ensures { Extracts source.now rows cols count rotations reflections (before store) result (after store) }
{
    check_sample(source, rows, cols, count)?;
    gather(store, source, rows, cols, rotations, reflections)
}
