// Exports for the comparison with the text, for C: each hands on what crate harness_tiles has under the same name.
#![tactic(auto)]

ghost use Rattle.std.specs.Prelude.{◌≡◌};
ghost use Rattle.rules.specs.Places.{box_contains, extension_of, boxed_extension};
ghost use Rattle.rules.specs.Sets.{members_listed};
ghost use Rattle.rules.specs.Tiles.{rotated, reflected, membership};
ghost use Rattle.rules.specs.Promises.{before, after, CopiesWords, CopiesFloats};
ghost use Rattle.boundary_slots.specs.Slots.{world, offset_by, pads_by, set_from};
ghost use Rattle.boundary.specs.Boundary.{Numbered, set_stored, truth_stored, Tells};
ghost use Rattle.harness_tiles.specs.Lent.{box_of, nine_of, put_from, TellsExtension, TellsMembers, PortExtracts};

#[unsafe(no_mangle)]
pub extern "C" fn port_contains(
    minrow: i32,
    mincol: i32,
    maxrow: i32,
    maxcol: i32,
    row: i32,
    col: i32,
    out: &mut [u32],
) -> u32
    ensures { Tells truth_stored (box_contains (box_of minrow mincol maxrow maxcol) (world row col)) (before out) result (after out) }
{
    harness_tiles::port_contains(minrow, mincol, maxrow, maxcol, row, col, out)
}

#[unsafe(no_mangle)]
pub extern "C" fn port_calculate_extension(
    rows: usize,
    cols: usize,
    down: i32,
    across: i32,
    row: i32,
    col: i32,
    radius: usize,
    pads: &mut [u64],
    offset: &mut [i32],
    needed: &mut [u32],
) -> u32
    ensures { TellsExtension (extension_of rows cols (offset_by down across) (world row col) radius) pads offset needed result }
{
    harness_tiles::port_calculate_extension(
        rows, cols, down, across, row, col, radius, pads, offset, needed,
    )
}

#[unsafe(no_mangle)]
pub extern "C" fn port_constrain_extension(
    rows: usize,
    cols: usize,
    down: i32,
    across: i32,
    row: i32,
    col: i32,
    radius: usize,
    minrow: i32,
    mincol: i32,
    maxrow: i32,
    maxcol: i32,
    pads: &mut [u64],
    offset: &mut [i32],
    needed: &mut [u32],
) -> u32
    ensures { TellsExtension (boxed_extension rows cols (offset_by down across) (world row col) radius (box_of minrow mincol maxrow maxcol))
        pads offset needed result }
{
    harness_tiles::port_constrain_extension(
        rows, cols, down, across, row, col, radius, minrow, mincol, maxrow, maxcol, pads, offset,
        needed,
    )
}

#[unsafe(no_mangle)]
pub extern "C" fn port_extend_u32(
    plane: &[u32],
    rows: usize,
    cols: usize,
    left: usize,
    right: usize,
    top: usize,
    bottom: usize,
    target: &mut [u32],
) -> u32
    ensures { Numbered (CopiesWords rows cols (pads_by left right top bottom) plane.now (before target)) result (after target) }
{
    harness_tiles::port_extend_u32(plane, rows, cols, left, right, top, bottom, target)
}

#[unsafe(no_mangle)]
pub extern "C" fn port_extend_f64(
    plane: &[f64],
    rows: usize,
    cols: usize,
    left: usize,
    right: usize,
    top: usize,
    bottom: usize,
    target: &mut [f64],
) -> u32
    ensures { Numbered (CopiesFloats rows cols (pads_by left right top bottom) plane.now (before target)) result (after target) }
{
    harness_tiles::port_extend_f64(plane, rows, cols, left, right, top, bottom, target)
}

#[unsafe(no_mangle)]
pub extern "C" fn port_set_to_vec(bits: u32, size: u32, colours: &mut [u8], len: &mut [u64]) -> u32
    ensures { TellsMembers (members_listed (set_from bits size)) colours len result }
{
    harness_tiles::port_set_to_vec(bits, size, colours, len)
}

#[unsafe(no_mangle)]
pub extern "C" fn port_extract_tiles(
    sample: &[u8],
    rows: usize,
    cols: usize,
    count: u32,
    rotations: bool,
    reflections: bool,
    store: &mut [u8],
    out: &mut [u64],
) -> u32
    ensures { PortExtracts sample.now rows cols count rotations reflections store out result }
{
    harness_tiles::port_extract_tiles(
        sample,
        rows,
        cols,
        count,
        rotations,
        reflections,
        store,
        out,
    )
}

#[unsafe(no_mangle)]
pub extern "C" fn port_rotate_90(tile: &[u8], out: &mut [u8])
    ensures { after out ≡ put_from 0 (rotated (nine_of tile.now)) (before out) }
{
    harness_tiles::port_rotate_90(tile, out)
}

#[unsafe(no_mangle)]
pub extern "C" fn port_reflect(tile: &[u8], out: &mut [u8])
    ensures { after out ≡ put_from 0 (reflected (nine_of tile.now)) (before out) }
{
    harness_tiles::port_reflect(tile, out)
}

#[unsafe(no_mangle)]
pub extern "C" fn port_membership(tile: &[u8], count: u32, out: &mut [u32]) -> u32
    ensures { Tells set_stored (membership (nine_of tile.now) count) (before out) result (after out) }
{
    harness_tiles::port_membership(tile, count, out)
}
