// The pads along one side and along both. A sum of coordinates, offsets, sides and pads is taken in 64 bits, where none overflows.
ghost use Rattle.std.specs.Prelude.{◌≡◌, true, ◌-◌, ◌≤◌};
ghost use Rattle.rules.specs.Bounds.{max_board_side, max_radius};
ghost use Rattle.rules.specs.Tests.{board_sides, offset_fits};
ghost use Rattle.rules.specs.Places.{first_of, last_of, pad_before, pad_after, boxed_before, boxed_after, pads_of, boxed_pads, extension_by};
ghost use Rattle.place_extension.specs.Given.{Reached, PadsIn, max_pad};

use rules::{BoundingBox, ExtensionInfo, Offset, Pads, World};

// The coordinate of the first cell of a side.
fn first_of(offset: i32) -> i64
    ensures { result ≡ first_of offset }
{
    -(offset as i64)
}

// The coordinate of the last cell.
fn last_of(side: usize, offset: i32) -> i64
    requires { side ≤ max_board_side }
    ensures { result ≡ last_of side offset }
{
    first_of(offset) + side as i64 - 1
}

// How far coordinate-radius lies before the first cell of a side, else 0.
fn pad_before(coordinate: i32, offset: i32, radius: usize) -> usize
    requires { radius ≤ max_radius }
    ensures { result ≡ pad_before offset coordinate radius }
{
    places::clip_to(first_of(offset) - (coordinate as i64 - radius as i64))
}

// How far coordinate+radius lies past the last cell of a side, else 0.
fn pad_after(side: usize, coordinate: i32, offset: i32, radius: usize) -> usize
    requires { (side ≤ max_board_side) × (radius ≤ max_radius) }
    ensures { result ≡ pad_after side offset coordinate radius }
{
    places::clip_to(coordinate as i64 + radius as i64 - last_of(side, offset))
}

// What is left of a pad; a function, since both boxed pads are made of it.
fn kept(pad: usize, past: usize) -> usize
    ensures { result ≡ pad - past }
{
    pad.saturating_sub(past)
}

// The pad before a side, less what of it lies before the box.
fn boxed_before(least: i32, offset: i32, pad: usize) -> usize
    requires { pad ≤ max_pad }
    ensures { result ≡ boxed_before least offset pad }
{
    kept(
        pad,
        places::clip_to(least as i64 - (first_of(offset) - pad as i64)),
    )
}

// The pad after a side, less what of it lies past the box.
fn boxed_after(most: i32, side: usize, offset: i32, pad: usize) -> usize
    requires { (side ≤ max_board_side) × (pad ≤ max_pad) }
    ensures { result ≡ boxed_after most side offset pad }
{
    kept(
        pad,
        places::clip_to(last_of(side, offset) + pad as i64 - most as i64),
    )
}

pub fn pads_of(rows: usize, cols: usize, offset: Offset, place: World, radius: usize) -> Pads
    requires { Reached rows cols offset place radius }
    ensures { result ≡ pads_of rows cols offset place radius }
{
    Pads {
        left: pad_before(place.0, offset.0, radius),
        right: pad_after(rows, place.0, offset.0, radius),
        top: pad_before(place.1, offset.1, radius),
        bottom: pad_after(cols, place.1, offset.1, radius),
    }
}

// Each pad loses the excess past the box, never below 0.
pub fn constrain_pads(
    bounds: BoundingBox,
    rows: usize,
    cols: usize,
    offset: Offset,
    pads: Pads,
) -> Pads
    requires { (board_sides rows cols ≡ true) × (PadsIn pads) }
    ensures { result ≡ boxed_pads bounds rows cols offset pads }
{
    Pads {
        left: boxed_before(bounds.min.0, offset.0, pads.left),
        right: boxed_after(bounds.max.0, rows, offset.0, pads.right),
        top: boxed_before(bounds.min.1, offset.1, pads.top),
        bottom: boxed_after(bounds.max.1, cols, offset.1, pads.bottom),
    }
}

// The new offset adds the pads before the first row and the first column.
pub fn offset_after(offset: Offset, pads: Pads) -> Offset
    requires { (offset_fits offset ≡ true) × (pads.left ≤ max_pad) × (pads.top ≤ max_pad) }
    ensures { result ≡ (extension_by offset pads).offset }
{
    Offset(offset.0 + pads.left as i32, offset.1 + pads.top as i32)
}

pub fn extension_by(offset: Offset, pads: Pads) -> ExtensionInfo
    requires { (offset_fits offset ≡ true) × (PadsIn pads) }
    ensures { result ≡ extension_by offset pads }
{
    ExtensionInfo {
        pads,
        offset: offset_after(offset, pads),
        needed: 0 < pads.left + pads.right + pads.top + pads.bottom,
    }
}
