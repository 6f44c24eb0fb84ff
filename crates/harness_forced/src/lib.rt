// Forced neighbours and the queue for tests in another language: each function hands its call the numbers and slices that it is given
// and tells its answer as crate boundary does. Positions cross as specs/Slices.antt has them.
#![tactic(auto)]

ghost use Rattle.rules.specs.Forced.{queue_empty, queue_length};
ghost use Rattle.rules.specs.Promises.{before, after};
ghost use Rattle.boundary_slots.specs.Slots.{world, offset_by, bounds_from};
ghost use Rattle.boundary.specs.Boundary.{value_stored, truth_stored, Tells};
ghost use Rattle.harness_forced.specs.Slices.{queue_from, positions_from, PortForces, PortAdds, PortTakes};

use boundary::judged;
use boundary_longs::counted;
use boundary_slots::{bounds_from, offset_at, world_at};

mod lent;
mod slices;

pub fn port_forced(
    pieces: &[u32],
    rows: usize,
    cols: usize,
    tiles: &[u8],
    count: u32,
    row: i32,
    col: i32,
    down: i32,
    across: i32,
    within: bool,
    minrow: i32,
    mincol: i32,
    maxrow: i32,
    maxcol: i32,
    coordinates: &mut [i32],
    colours: &mut [u32],
    len: &mut [u64],
) -> u32
    ensures { PortForces pieces.now rows cols tiles.now count (world row col) (offset_by down across)
        (bounds_from within (world minrow mincol) (world maxrow maxcol)) coordinates colours len result }
{
    let answer = fit_forced::detect_forced_positions(
        pieces,
        rows,
        cols,
        tiles,
        count,
        world_at(row, col),
        offset_at(down, across),
        bounds_from(within, world_at(minrow, mincol), world_at(maxrow, maxcol)),
    );
    slices::forced_given(answer, coordinates, colours, len)
}

pub fn port_queue_add(
    coordinates: &mut [i32],
    colours: &mut [u32],
    len: &mut [u64],
    addedcoordinates: &[i32],
    addedcolours: &[u32],
    addedlen: usize,
) -> u32
    ensures { PortAdds (positions_from addedcoordinates.now addedcolours.now addedlen) coordinates colours len result }
{
    let n = slices::length_at(len);
    let queue = slices::queue_from(coordinates, colours, n);
    let added = slices::positions_from(addedcoordinates, addedcolours, addedlen);
    let grown = lent::add_positions(queue, added);
    slices::added_given(grown.answer, &grown.queue, coordinates, colours, len)
}

pub fn port_queue_take(
    coordinates: &mut [i32],
    colours: &mut [u32],
    len: &mut [u64],
    taken: &mut [i32],
    colour: &mut [u32],
    found: &mut [u32],
) -> u32
    ensures { PortTakes coordinates colours len taken colour found result }
{
    let n = slices::length_at(len);
    let queue = slices::queue_from(coordinates, colours, n);
    let answer = lent::take_next(queue);
    slices::taken_given(
        answer.next,
        &answer.queue,
        coordinates,
        colours,
        len,
        taken,
        colour,
        found,
    )
}

pub fn port_queue_is_empty(coordinates: &[i32], colours: &[u32], len: usize, out: &mut [u32]) -> u32
    ensures { Tells truth_stored (queue_empty (queue_from coordinates.now colours.now len)) (before out) result (after out) }
{
    judged(
        queue::is_empty(slices::queue_from(coordinates, colours, len)),
        out,
    )
}

pub fn port_queue_len(coordinates: &[i32], colours: &[u32], len: usize, out: &mut [u64]) -> u32
    ensures { Tells value_stored (queue_length (queue_from coordinates.now colours.now len)) (before out) result (after out) }
{
    counted(
        queue::len(slices::queue_from(coordinates, colours, len)),
        out,
    )
}
