// Exports for the comparison with the text, for C: each hands on what crate harness_forced has under the same name.
#![tactic(auto)]

ghost use Rattle.rules.specs.Forced.{queue_empty, queue_length};
ghost use Rattle.rules.specs.Promises.{before, after};
ghost use Rattle.boundary_slots.specs.Slots.{world, offset_by, bounds_from};
ghost use Rattle.boundary.specs.Boundary.{value_stored, truth_stored, Tells};
ghost use Rattle.harness_forced.specs.Slices.{queue_from, positions_from, PortForces, PortAdds, PortTakes};

#[unsafe(no_mangle)]
pub extern "C" fn port_forced(
    pieces: &[u32],
    rows: usize,
    cols: usize,
    tiles: &[u8],
    count: u32,
    row: i32,
    col: i32,
    down: i32,
    across: i32,
    within: bool,
    minrow: i32,
    mincol: i32,
    maxrow: i32,
    maxcol: i32,
    coordinates: &mut [i32],
    colours: &mut [u32],
    len: &mut [u64],
) -> u32
    ensures { PortForces pieces.now rows cols tiles.now count (world row col) (offset_by down across)
        (bounds_from within (world minrow mincol) (world maxrow maxcol)) coordinates colours len result }
{
    harness_forced::port_forced(
        pieces,
        rows,
        cols,
        tiles,
        count,
        row,
        col,
        down,
        across,
        within,
        minrow,
        mincol,
        maxrow,
        maxcol,
        coordinates,
        colours,
        len,
    )
}

#[unsafe(no_mangle)]
pub extern "C" fn port_queue_add(
    coordinates: &mut [i32],
    colours: &mut [u32],
    len: &mut [u64],
    addedcoordinates: &[i32],
    addedcolours: &[u32],
    addedlen: usize,
) -> u32
    ensures { PortAdds (positions_from addedcoordinates.now addedcolours.now addedlen) coordinates colours len result }
{
    harness_forced::port_queue_add(
        coordinates,
        colours,
        len,
        addedcoordinates,
        addedcolours,
        addedlen,
    )
}

#[unsafe(no_mangle)]
pub extern "C" fn port_queue_take(
    coordinates: &mut [i32],
    colours: &mut [u32],
    len: &mut [u64],
    taken: &mut [i32],
    colour: &mut [u32],
    found: &mut [u32],
) -> u32
    ensures { PortTakes coordinates colours len taken colour found result }
{
    harness_forced::port_queue_take(coordinates, colours, len, taken, colour, found)
}

#[unsafe(no_mangle)]
pub extern "C" fn port_queue_is_empty(
    coordinates: &[i32],
    colours: &[u32],
    len: usize,
    out: &mut [u32],
) -> u32
    ensures { Tells truth_stored (queue_empty (queue_from coordinates.now colours.now len)) (before out) result (after out) }
{
    harness_forced::port_queue_is_empty(coordinates, colours, len, out)
}

#[unsafe(no_mangle)]
pub extern "C" fn port_queue_len(
    coordinates: &[i32],
    colours: &[u32],
    len: usize,
    out: &mut [u64],
) -> u32
    ensures { Tells value_stored (queue_length (queue_from coordinates.now colours.now len)) (before out) result (after out) }
{
    harness_forced::port_queue_len(coordinates, colours, len, out)
}
