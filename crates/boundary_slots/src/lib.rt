// What every crossing to another language uses: a value put into an entry of a lent slice, a place or an offset taken from its two numbers,
// a box from its corners, an offset put into two entries, a truth as 0 or 1. An entry past the end of such a slice is not stored.
#![tactic(auto)]

ghost use Rattle.std.specs.Prelude.{◌≡◌};
ghost use Rattle.rules.specs.Promises.{before, after};
ghost use Rattle.boundary_slots.specs.Slots.{put, world, offset_by, bounds_from, offset_stored, digit_of};

use rules::{BoundingBox, Offset, World};

// By the index: `get_mut` says nothing of what the slice holds in the end.
pub fn put<T: Copy>(entries: &mut [T], at: usize, value: T)
    ensures { after entries ≡ put (before entries) at value }
{
    if at < entries.len() {
        entries[at] = value;
    }
}

pub fn put_offset(numbers: &mut [i32], offset: Offset)
    ensures { after numbers ≡ offset_stored offset (before numbers) }
{
    put(numbers, 0, offset.0);
    put(numbers, 1, offset.1);
}

pub fn world_at(row: i32, col: i32) -> World
    ensures { result ≡ world row col }
{
    World(row, col)
}

pub fn offset_at(row: i32, col: i32) -> Offset
    ensures { result ≡ offset_by row col }
{
    Offset(row, col)
}

// A box that is given by its corners, or none.
pub fn bounds_from(within: bool, least: World, most: World) -> Option<BoundingBox>
    ensures { result ≡ bounds_from within least most }
{
    within.then_some(BoundingBox {
        min: least,
        max: most,
    })
}

pub fn digit(truth: bool) -> u32
    ensures { result ≡ digit_of truth }
{
    u32::from(truth)
}
