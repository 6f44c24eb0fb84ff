// The calls on places, tiles and sets for tests in another language: each hands its call the numbers and slices that it is given and
// tells its answer as crate boundary does.
#![tactic(auto)]

ghost use Rattle.std.specs.Prelude.{◌≡◌};
ghost use Rattle.rules.specs.Places.{box_contains, extension_of, boxed_extension};
ghost use Rattle.rules.specs.Sets.{members_listed};
ghost use Rattle.rules.specs.Tiles.{rotated, reflected, membership};
ghost use Rattle.rules.specs.Promises.{before, after, CopiesWords, CopiesFloats};
ghost use Rattle.boundary_slots.specs.Slots.{world, offset_by, pads_by, set_from};
ghost use Rattle.boundary.specs.Boundary.{Numbered, set_stored, truth_stored, Tells};
ghost use Rattle.harness_tiles.specs.Lent.{box_of, nine_of, put_from, TellsExtension, TellsMembers, PortExtracts};

use boundary::{judged, set_given, written};
use boundary_longs::counted;
use boundary_slots::{offset_at, world_at};
use rules::{Pads, TileBitset};

mod lent;

pub fn port_contains(
    minrow: i32,
    mincol: i32,
    maxrow: i32,
    maxcol: i32,
    row: i32,
    col: i32,
    out: &mut [u32],
) -> u32
    ensures { Tells truth_stored (box_contains (box_of minrow mincol maxrow maxcol) (world row col)) (before out) result (after out) }
{
    let bounds = lent::box_at(minrow, mincol, maxrow, maxcol);
    let place = world_at(row, col);
    let answer = place_boxes::contains(bounds, place);
    judged(answer, out)
}

pub fn port_calculate_extension(
    rows: usize,
    cols: usize,
    down: i32,
    across: i32,
    row: i32,
    col: i32,
    radius: usize,
    pads: &mut [u64],
    offset: &mut [i32],
    needed: &mut [u32],
) -> u32
    ensures { TellsExtension (extension_of rows cols (offset_by down across) (world row col) radius) pads offset needed result }
{
    let place = world_at(row, col);
    let from = offset_at(down, across);
    let answer = place_extension::calculate_extension(rows, cols, from, place, radius);
    lent::extension_given(answer, pads, offset, needed)
}

pub fn port_constrain_extension(
    rows: usize,
    cols: usize,
    down: i32,
    across: i32,
    row: i32,
    col: i32,
    radius: usize,
    minrow: i32,
    mincol: i32,
    maxrow: i32,
    maxcol: i32,
    pads: &mut [u64],
    offset: &mut [i32],
    needed: &mut [u32],
) -> u32
    ensures { TellsExtension (boxed_extension rows cols (offset_by down across) (world row col) radius (box_of minrow mincol maxrow maxcol))
        pads offset needed result }
{
    let place = world_at(row, col);
    let from = offset_at(down, across);
    let bounds = lent::box_at(minrow, mincol, maxrow, maxcol);
    let answer = place_extension::constrain_extension(rows, cols, from, place, radius, bounds);
    lent::extension_given(answer, pads, offset, needed)
}

pub fn port_extend_u32(
    plane: &[u32],
    rows: usize,
    cols: usize,
    left: usize,
    right: usize,
    top: usize,
    bottom: usize,
    target: &mut [u32],
) -> u32
    ensures { Numbered (CopiesWords rows cols (pads_by left right top bottom) plane.now (before target)) result (after target) }
{
    let pads = Pads {
        left,
        right,
        top,
        bottom,
    };
    let answer = copies::extend_array_2d_u32(target, plane, rows, cols, pads);
    written(answer)
}

pub fn port_extend_f64(
    plane: &[f64],
    rows: usize,
    cols: usize,
    left: usize,
    right: usize,
    top: usize,
    bottom: usize,
    target: &mut [f64],
) -> u32
    ensures { Numbered (CopiesFloats rows cols (pads_by left right top bottom) plane.now (before target)) result (after target) }
{
    let pads = Pads {
        left,
        right,
        top,
        bottom,
    };
    let answer = copies::extend_array_2d_f64(target, plane, rows, cols, pads);
    written(answer)
}

pub fn port_set_to_vec(bits: u32, size: u32, colours: &mut [u8], len: &mut [u64]) -> u32
    ensures { TellsMembers (members_listed (set_from bits size)) colours len result }
{
    let answer = bitset::to_vec(TileBitset { bits, size });
    lent::colours_given(answer, colours, len)
}

pub fn port_extract_tiles(
    sample: &[u8],
    rows: usize,
    cols: usize,
    count: u32,
    rotations: bool,
    reflections: bool,
    store: &mut [u8],
    out: &mut [u64],
) -> u32
    ensures { PortExtracts sample.now rows cols count rotations reflections store out result }
{
    let answer = tiles::extract_tiles(sample, rows, cols, count, rotations, reflections, store);
    counted(answer, out)
}

pub fn port_rotate_90(tile: &[u8], out: &mut [u8])
    ensures { after out ≡ put_from 0 (rotated (nine_of tile.now)) (before out) }
{
    let turned = tile_forms::rotate_90(lent::tile_of(tile));
    lent::put_bytes(out, &turned);
}

pub fn port_reflect(tile: &[u8], out: &mut [u8])
    ensures { after out ≡ put_from 0 (reflected (nine_of tile.now)) (before out) }
{
    let mirrored = tile_forms::reflect(lent::tile_of(tile));
    lent::put_bytes(out, &mirrored);
}

pub fn port_membership(tile: &[u8], count: u32, out: &mut [u32]) -> u32
    ensures { Tells set_stored (membership (nine_of tile.now) count) (before out) result (after out) }
{
    let answer = tiles::convert_tile_to_membership_booleans(lent::tile_of(tile), count);
    set_given(answer, out)
}
