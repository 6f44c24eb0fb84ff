// The text's algorithm/bitset.rs: sets of colours, 32 bits with their size. Each call checks the sets that it is given: COUNT for a size
// out of bounds and for two sizes that differ, CELL for a set that marks a colour past its size.
#![tactic(auto)]

ghost use Rattle.std.specs.Prelude.{◌≡◌, true};
ghost use Rattle.rules.specs.Answers.{checked};
ghost use Rattle.rules.specs.Tests.{colour_count};
ghost use Rattle.rules.specs.Sets.{marks_within, new_set_checks, set_checks, sets_checks, empty_set, full_set, inserted, contained, intersected, emptiness, members_counted, members_listed};

use rules::{ColourList, Refusal, TileBitset};

fn check_size(size: u32) -> Result<(), Refusal>
    ensures { result ≡ checked (new_set_checks size) }
{
    if !check_sizes::colour_count(size) {
        return Err(Refusal::Count);
    }
    Ok(())
}

fn marks_within(set: TileBitset) -> bool
    requires { colour_count set.size ≡ true }
    ensures { result ≡ marks_within set }
{
    set.bits < (1u32 << set.size)
}

fn check_set(set: TileBitset) -> Result<(), Refusal>
    ensures { result ≡ checked (set_checks set) }
{
    check_size(set.size)?;
    if !marks_within(set) {
        return Err(Refusal::Cell);
    }
    Ok(())
}

fn check_sets(set: TileBitset, other: TileBitset) -> Result<(), Refusal>
    ensures { result ≡ checked (sets_checks set other) }
{
    check_size(set.size)?;
    if set.size != other.size {
        return Err(Refusal::Count);
    }
    if !marks_within(set) {
        return Err(Refusal::Cell);
    }
    if !marks_within(other) {
        return Err(Refusal::Cell);
    }
    Ok(())
}

pub fn new(size: u32) -> Result<TileBitset, Refusal>
    ensures { result ≡ empty_set size }
{
    check_size(size)?;
    Ok(TileBitset { bits: 0, size })
}

pub fn all(size: u32) -> Result<TileBitset, Refusal>
    ensures { result ≡ full_set size }
{
    let empty = new(size)?;
    let bits = bitset_colours::all_colours(size);
    Ok(TileBitset { bits, ..empty })
}

// 0 and a colour past the size are left out, as in the text.
pub fn insert(set: TileBitset, tile: u32) -> Result<TileBitset, Refusal>
    ensures { result ≡ inserted set tile }
{
    check_set(set)?;
    if set.size < tile {
        return Ok(set);
    }
    let bits = bitset_colours::with_colour(set.bits, tile);
    Ok(TileBitset { bits, ..set })
}

pub fn contains(set: TileBitset, tile: u32) -> Result<bool, Refusal>
    ensures { result ≡ contained set tile }
{
    check_set(set)?;
    if set.size < tile {
        return Ok(false);
    }
    Ok(bitset_colours::has_colour(set.bits, tile))
}

pub fn intersection(set: TileBitset, other: TileBitset) -> Result<TileBitset, Refusal>
    ensures { result ≡ intersected set other }
{
    check_sets(set, other)?;
    let bits = bitset_colours::common_colours(set.bits, other.bits);
    Ok(TileBitset { bits, ..set })
}

pub fn is_empty(set: TileBitset) -> Result<bool, Refusal>
    ensures { result ≡ emptiness set }
{
    check_set(set)?;
    Ok(bitset_colours::no_colour(set.bits))
}

pub fn count(set: TileBitset) -> Result<usize, Refusal>
    ensures { result ≡ members_counted set }
{
    check_set(set)?;
    Ok(bitset_colours::colours_in(set.bits) as usize)
}

pub fn to_vec(set: TileBitset) -> Result<ColourList, Refusal>
    ensures { result ≡ members_listed set }
{
    // A set that is refused has no list, not even an empty one.
    check_set(set)?;
    Ok(bitset_colours::members(set.bits, set.size))
}
