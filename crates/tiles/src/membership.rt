// The text's `convert_tile_to_membership_booleans`: the set of a tile's colours, 0 left out.
ghost use Rattle.std.specs.Prelude.{◌≡◌, true, eqb, get_or};
ghost use Rattle.base.specs.Counting.{some};
ghost use Rattle.rules.specs.Tests.{colour_count, none_above};
ghost use Rattle.rules.specs.Sets.{bits_of};
ghost use Rattle.rules.specs.Tiles.{membership};

use rules::{Refusal, TileBitset};

fn colours_of(tile: [u8; rules::TILE_CELLS], count: u32) -> u32
    requires { (colour_count count ≡ true) × (none_above tile count ≡ true) }
    ensures { result ≡ bits_of count (λ t. some 9 (λ k. eqb t (get_or tile k 0))) }
{
    let mut bits: u32 = 0;
    for cell in &tile {
        bits = bitset_colours::with_colour(bits, u32::from(*cell));
    }
    bits
}

pub fn convert_tile_to_membership_booleans(
    tile: [u8; rules::TILE_CELLS],
    count: u32,
) -> Result<TileBitset, Refusal>
    ensures { result ≡ membership tile count }
{
    if !check_sizes::colour_count(count) {
        return Err(Refusal::Count);
    }
    if !check_contents::no_byte_above(&tile, count) {
        return Err(Refusal::Cell);
    }
    Ok(TileBitset {
        bits: colours_of(tile, count),
        size: count,
    })
}
