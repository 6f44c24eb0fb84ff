// How queues and forced positions cross as slices.
ghost use Rattle.std.specs.Prelude.{◌≡◌, ◌<◌, ◌≤◌, get_or, length};
ghost use Rattle.base.specs.Tables.{tab};
ghost use Rattle.rules.specs.Bounds.{queue_room};
ghost use Rattle.rules.specs.Promises.{before, after};
ghost use Rattle.boundary_slots.specs.Slots.{put};
ghost use Rattle.boundary.specs.Boundary.{Tells};
ghost use Rattle.harness_forced.specs.Slices.{entry_at, queue_from, positions_from, slices_before, slices_after};
ghost use Rattle.harness_forced.specs.Slices.{place_stored, stored, positions_stored, grown_stored, TellsNext};

use boundary::written;
use boundary_slots::put;
use rules::{ForcedPipeline, ForcedPosition, ForcedPositions, Refusal, World};

// An element, or `none` where the slice does not have it.
fn element<T: Copy>(elements: &[T], at: usize, none: T) -> T
    ensures { result ≡ get_or elements.now at none }
{
    if at < elements.len() {
        return elements[at];
    }
    none
}

fn entry_at(coordinates: &[i32], colours: &[u32], i: usize) -> ForcedPosition
    requires { i < queue_room }
    ensures { result ≡ entry_at coordinates.now colours.now i }
{
    ForcedPosition {
        coordinates: World(
            element(coordinates, 2 * i, 0),
            element(coordinates, 2 * i + 1, 0),
        ),
        colour: element(colours, i, 0),
    }
}

// Each of the entries as the slices have it.
fn fill(entries: &mut [ForcedPosition], coordinates: &[i32], colours: &[u32])
    requires { length entries.old ≤ queue_room }
    ensures { after entries ≡ tab (length (before entries)) (entry_at coordinates.now colours.now) }
{
    for (i, entry) in entries.iter_mut().enumerate() {
        *entry = entry_at(coordinates, colours, i);
    }
}

pub fn queue_from(coordinates: &[i32], colours: &[u32], len: usize) -> ForcedPipeline
    ensures { result ≡ queue_from coordinates.now colours.now len }
{
    let mut entries = queue::new().entries;
    fill(&mut entries, coordinates, colours);
    ForcedPipeline { entries, len }
}

pub fn positions_from(coordinates: &[i32], colours: &[u32], len: usize) -> ForcedPositions
    ensures { result ≡ positions_from coordinates.now colours.now len }
{
    let none = ForcedPosition {
        coordinates: World(0, 0),
        colour: 0,
    };
    let mut entries = [none; rules::ADDED_ROOM];
    fill(&mut entries, coordinates, colours);
    ForcedPositions { entries, len }
}

// The entry that holds a length; 0 where there is none.
pub fn length_at(longs: &[u64]) -> usize
    ensures { result ≡ get_or longs.now 0 0 }
{
    element(longs, 0, 0) as usize
}

// The place and the colour of entry i.
fn put_entry(entry: ForcedPosition, i: usize, coordinates: &mut [i32], colours: &mut [u32])
    requires { i < queue_room }
    ensures { (after coordinates ≡ place_stored entry i (before coordinates)) × (after colours ≡ put (before colours) i entry.colour) }
{
    put(coordinates, 2 * i, entry.coordinates.0);
    put(coordinates, 2 * i + 1, entry.coordinates.1);
    put(colours, i, entry.colour);
}

// All entries of a room, and how many of them count.
fn put_entries(
    entries: &[ForcedPosition],
    n: usize,
    coordinates: &mut [i32],
    colours: &mut [u32],
    len: &mut [u64],
)
    requires { length entries.now ≤ queue_room }
    ensures { slices_after coordinates colours len ≡ stored (length entries.now) entries.now n (slices_before coordinates colours len) }
{
    for (i, entry) in entries.iter().enumerate() {
        put_entry(*entry, i, coordinates, colours);
    }
    put(len, 0, n as u64);
}

// What adding answers: the queue as it is then goes back, unless the call is refused.
pub fn added_given(
    answer: Result<(), Refusal>,
    queue: &ForcedPipeline,
    coordinates: &mut [i32],
    colours: &mut [u32],
    len: &mut [u64],
) -> u32
    ensures { Tells (grown_stored queue.now) answer (slices_before coordinates colours len) result (slices_after coordinates colours len) }
{
    if let Ok(()) = answer {
        put_entries(&queue.entries, queue.len, coordinates, colours, len);
    }
    written(answer)
}

// What taking answers: the queue as it is then, and the position that is taken or that there is none, unless the call is refused.
pub fn taken_given(
    next: Result<Option<ForcedPosition>, Refusal>,
    queue: &ForcedPipeline,
    coordinates: &mut [i32],
    colours: &mut [u32],
    len: &mut [u64],
    taken: &mut [i32],
    colour: &mut [u32],
    found: &mut [u32],
) -> u32
    ensures { TellsNext next queue.now coordinates colours len taken colour found result }
{
    match next {
        Ok(Some(position)) => {
            put_entries(&queue.entries, queue.len, coordinates, colours, len);
            put_entry(position, 0, taken, colour);
            put(found, 0, 1);
        }
        Ok(None) => {
            put_entries(&queue.entries, queue.len, coordinates, colours, len);
            put(found, 0, 0);
        }
        Err(_) => {}
    }
    written(next)
}

// What forced neighbours answers: the positions go back, unless the call is refused.
pub fn forced_given(
    answer: Result<ForcedPositions, Refusal>,
    coordinates: &mut [i32],
    colours: &mut [u32],
    len: &mut [u64],
) -> u32
    ensures { Tells positions_stored answer (slices_before coordinates colours len) result (slices_after coordinates colours len) }
{
    if let Ok(found) = answer {
        put_entries(&found.entries, found.len, coordinates, colours, len);
    }
    written(answer)
}
