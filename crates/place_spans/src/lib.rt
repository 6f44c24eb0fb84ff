// Document 01, "Places": the spans of rows and columns of a radius round a place, which may lie off the board.
#![tactic(auto)]

ghost use Rattle.std.specs.Prelude.{◌≡◌, ◌≤◌, ◌+ℤ◌};
ghost use Rattle.rules.specs.Answers.{checked};
ghost use Rattle.rules.specs.Bounds.{max_radius};
ghost use Rattle.rules.specs.Places.{span_of, span_checks, region_spans};

use places::{clip_to, offset_fits, on_wall, signed_index};
use rules::{Offset, Refusal, Span, Spans, World};

// The span of a radius round the index of a coordinate, along one side.
fn span_along(coordinate: i32, offset: i32, radius: usize) -> Span
    requires { radius ≤ max_radius }
    ensures { result ≡ span_of (coordinate +ℤ offset) radius }
{
    let index = signed_index(coordinate, offset);
    let reach = radius as i64;
    Span(clip_to(index - reach), clip_to(index + reach + 1))
}

// The checks of a radius round a place, which may lie off the board.
pub fn check_region(offset: Offset, place: World, radius: usize) -> Result<(), Refusal>
    ensures { result ≡ checked (span_checks offset place radius) }
{
    if radius > rules::MAX_RADIUS {
        return Err(Refusal::Shape);
    }
    if !on_wall(place) {
        return Err(Refusal::Place);
    }
    if !offset_fits(offset) {
        return Err(Refusal::Place);
    }
    Ok(())
}

pub fn get_region_spans(offset: Offset, place: World, radius: usize) -> Result<Spans, Refusal>
    ensures { result ≡ region_spans offset place radius }
{
    check_region(offset, place, radius)?;
    Ok(Spans {
        rows: span_along(place.0, offset.0, radius),
        cols: span_along(place.1, offset.1, radius),
    })
}
