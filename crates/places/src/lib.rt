// Document 01, "Places": wall coordinates and cell indices. A wall coordinate becomes an index only through the offset, and
// only here. Their sum is taken in 64 bits, where no two of them overflow, so that these functions ask nothing of their input: a
// neighbour of a place on the wall may lie off it.
#![tactic(auto)]

ghost use Rattle.std.specs.Prelude.{◌≡◌, min, ◌&&◌, ◌+ℤ◌};
ghost use Rattle.base.specs.Whole.{clip, within_z, index_below};
ghost use Rattle.rules.specs.Answers.{checked};
ghost use Rattle.rules.specs.Tests.{on_wall, offset_fits, on_board};
ghost use Rattle.rules.specs.Places.{cell_of};
ghost use Rattle.rules.specs.Fit.{place_checks};

use rules::{Cell, Offset, Refusal, World};

pub fn in_range(least: i32, most: i32, z: i32) -> bool
    ensures { result ≡ within_z least most z }
{
    least <= z && z <= most
}

fn both_in_range(least: i32, most: i32, x: i32, y: i32) -> bool
    ensures { result ≡ (within_z least most x && within_z least most y) }
{
    in_range(least, most, x) && in_range(least, most, y)
}

pub fn on_wall(place: World) -> bool
    ensures { result ≡ on_wall place }
{
    both_in_range(
        rules::MIN_COORDINATE,
        rules::MAX_COORDINATE,
        place.0,
        place.1,
    )
}

pub fn offset_fits(offset: Offset) -> bool
    ensures { result ≡ offset_fits offset }
{
    both_in_range(rules::MIN_OFFSET, rules::MAX_OFFSET, offset.0, offset.1)
}

// The larger of 0 and z.
pub fn clip_to(z: i64) -> usize
    ensures { result ≡ clip z }
{
    usize::try_from(z).unwrap_or(0)
}

pub fn least(a: usize, b: usize) -> usize
    ensures { result ≡ min a b }
{
    a.min(b)
}

fn index_below(n: usize, z: i64) -> bool
    ensures { result ≡ index_below n z }
{
    usize::try_from(z).is_ok_and(|index| index < n)
}

// Index = coordinate + offset, along one side. It may lie off the board.
pub fn signed_index(coordinate: i32, offset: i32) -> i64
    ensures { result ≡ coordinate +ℤ offset }
{
    coordinate as i64 + offset as i64
}

// The index along one side; 0 stands for one that would be negative.
fn index_along(coordinate: i32, offset: i32) -> usize
    ensures { result ≡ clip (coordinate +ℤ offset) }
{
    clip_to(signed_index(coordinate, offset))
}

fn on_side(side: usize, coordinate: i32, offset: i32) -> bool
    ensures { result ≡ index_below side (coordinate +ℤ offset) }
{
    index_below(side, signed_index(coordinate, offset))
}

pub fn on_board(rows: usize, cols: usize, place: World, offset: Offset) -> bool
    ensures { result ≡ on_board rows cols place offset }
{
    on_side(rows, place.0, offset.0) && on_side(cols, place.1, offset.1)
}

pub fn cell_of(place: World, offset: Offset) -> Cell
    ensures { result ≡ cell_of place offset }
{
    Cell(
        index_along(place.0, offset.0),
        index_along(place.1, offset.1),
    )
}

// The checks of a place that has to lie on the board.
pub fn check_place(rows: usize, cols: usize, place: World, offset: Offset) -> Result<(), Refusal>
    ensures { result ≡ checked (place_checks rows cols place offset) }
{
    if !on_wall(place) {
        return Err(Refusal::Place);
    }
    if !offset_fits(offset) {
        return Err(Refusal::Place);
    }
    if !on_board(rows, cols, place, offset) {
        return Err(Refusal::Place);
    }
    Ok(())
}
