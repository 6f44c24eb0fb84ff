// Document 01, "Places": the extension of a grid, without and with a box.
#![tactic(auto)]

ghost use Rattle.std.specs.Prelude.{◌≡◌};
ghost use Rattle.rules.specs.Answers.{checked};
ghost use Rattle.rules.specs.Places.{extension_of, boxed_extension, extension_checks};

pub use pads::offset_after;
use rules::{BoundingBox, ExtensionInfo, Offset, Refusal, World};

mod pads;

// The checks of both calls.
fn check_extension(
    rows: usize,
    cols: usize,
    offset: Offset,
    place: World,
    radius: usize,
) -> Result<(), Refusal>
    ensures { result ≡ checked (extension_checks rows cols offset place radius) }
{
    if !check_sizes::board_sides(rows, cols) {
        return Err(Refusal::Shape);
    }
    place_spans::check_region(offset, place, radius)
}

// How far a grid must grow to hold a place with a radius round it.
pub fn calculate_extension(
    rows: usize,
    cols: usize,
    offset: Offset,
    place: World,
    radius: usize,
) -> Result<ExtensionInfo, Refusal>
    ensures { result ≡ extension_of rows cols offset place radius }
{
    check_extension(rows, cols, offset, place, radius)?;
    let wanted = pads::pads_of(rows, cols, offset, place, radius);
    Ok(pads::extension_by(offset, wanted))
}

// The same, and no further than a box. Where the grid already lies past the box, it does not shrink.
pub fn constrain_extension(
    rows: usize,
    cols: usize,
    offset: Offset,
    place: World,
    radius: usize,
    bounds: BoundingBox,
) -> Result<ExtensionInfo, Refusal>
    ensures { result ≡ boxed_extension rows cols offset place radius bounds }
{
    check_extension(rows, cols, offset, place, radius)?;
    if !place_boxes::box_fits(bounds) {
        return Err(Refusal::Place);
    }
    let wanted = pads::pads_of(rows, cols, offset, place, radius);
    let granted = pads::constrain_pads(bounds, rows, cols, offset, wanted);
    Ok(pads::extension_by(offset, granted))
}
