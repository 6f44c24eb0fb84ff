// Document 01, "Places": a box on the wall, and what it contains.
#![tactic(auto)]

ghost use Rattle.std.specs.Prelude.{◌≡◌};
ghost use Rattle.rules.specs.Places.{in_box, box_fits, box_contains};

use places::{in_range, on_wall};
use rules::{BoundingBox, Refusal, World};

pub fn in_box(bounds: BoundingBox, place: World) -> bool
    ensures { result ≡ in_box bounds place }
{
    in_range(bounds.min.0, bounds.max.0, place.0) && in_range(bounds.min.1, bounds.max.1, place.1)
}

// Both corners lie on the wall; that min is not above max is not asked.
pub fn box_fits(bounds: BoundingBox) -> bool
    ensures { result ≡ box_fits bounds }
{
    on_wall(bounds.min) && on_wall(bounds.max)
}

pub fn contains(bounds: BoundingBox, place: World) -> Result<bool, Refusal>
    ensures { result ≡ box_contains bounds place }
{
    if !box_fits(bounds) {
        return Err(Refusal::Place);
    }
    if !on_wall(place) {
        return Err(Refusal::Place);
    }
    Ok(in_box(bounds, place))
}
