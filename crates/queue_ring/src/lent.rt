// The queue of a forced run in three arrays that the caller lends: a slot is a row, a column and a colour. Slots are used one after the
// other, and slot 0 again after the last.

ghost use Rattle.std.specs.Prelude.{◌≡◌, List, ℕ, ◌<◌, ◌≤◌, pos, get_or, set};
ghost use Rattle.rules.specs.Bounds.{queue_room, added_room};
ghost use Rattle.rules.specs.Forced.{offered, is_queued, with_position, with_positions};
ghost use Rattle.rules.specs.Promises.{before, after};
ghost use Rattle.queue_ring.specs.Slots.{slots, slots_before, slots_after, in_slot, slot_of, waiting, Ringed, Grows};

use queue_entries::same_place;
use rules::{ForcedPosition, ForcedPositions, Refusal, World};

// The slot of entry i of a queue.
pub fn slot_of(first: usize, i: usize) -> usize
    requires { (first < queue_room) × (i ≤ queue_room) }
    ensures { (result ≡ slot_of first i) × (result < queue_room) }
{
    (first + i) % rules::QUEUE_ROOM
}

fn number_in(numbers: &[i32; rules::QUEUE_ROOM], at: usize) -> i32
    requires { at < queue_room }
    ensures { result ≡ get_or numbers.now at (pos 0) }
{
    numbers[at]
}

// What stands in a slot.
pub fn entry_in(
    rows: &[i32; rules::QUEUE_ROOM],
    cols: &[i32; rules::QUEUE_ROOM],
    colours: &[u32; rules::QUEUE_ROOM],
    at: usize,
) -> ForcedPosition
    requires { at < queue_room }
    ensures { result ≡ in_slot (slots rows.now cols.now colours.now) at }
{
    let row = number_in(rows, at);
    let col = number_in(cols, at);
    let colour = colours[at];
    ForcedPosition {
        coordinates: World(row, col),
        colour,
    }
}

fn put_entry(
    rows: &mut [i32; rules::QUEUE_ROOM],
    cols: &mut [i32; rules::QUEUE_ROOM],
    colours: &mut [u32; rules::QUEUE_ROOM],
    at: usize,
    position: ForcedPosition,
)
    requires { at < queue_room }
    ensures { (after rows ≡ set (before rows) at position.coordinates.0)
        × (after cols ≡ set (before cols) at position.coordinates.1) × (after colours ≡ set (before colours) at position.colour) }
{
    let place = position.coordinates;
    let row = place.0;
    let col = place.1;
    rows[at] = row;
    cols[at] = col;
    colours[at] = position.colour;
}

// Whether an entry stands at the place, whatever its colour.
fn is_queued(
    rows: &[i32; rules::QUEUE_ROOM],
    cols: &[i32; rules::QUEUE_ROOM],
    first: usize,
    len: usize,
    place: World,
) -> bool
    requires { (first < queue_room) × (len ≤ queue_room) }
    ensures { (colours : List ℕ) → result ≡ is_queued place (waiting (slots rows.now cols.now colours) first len) }
{
    for i in 0..len {
        let at = slot_of(first, i);
        let there = World(number_in(rows, at), number_in(cols, at));
        if same_place(there, place) {
            return true;
        }
    }
    false
}

// One position more, behind the entries, unless its place is queued; ROOM where no slot is free.
fn add_position(
    rows: &mut [i32; rules::QUEUE_ROOM],
    cols: &mut [i32; rules::QUEUE_ROOM],
    colours: &mut [u32; rules::QUEUE_ROOM],
    first: usize,
    len: usize,
    position: ForcedPosition,
) -> Result<usize, Refusal>
    requires { Ringed (slots rows.old cols.old colours.old) first len }
    ensures { Grows (slots_before rows cols colours) first len
        (with_position (waiting (slots_before rows cols colours) first len) position) result (slots_after rows cols colours) }
{
    let place = position.coordinates;
    if is_queued(rows, cols, first, len, place) {
        return Ok(len);
    }
    if len == rules::QUEUE_ROOM {
        return Err(Refusal::Room);
    }
    let at = slot_of(first, len);
    put_entry(rows, cols, colours, at, position);
    Ok(len + 1)
}

// All of them, or, where there is not room for all, none: what was put behind the entries is not read then.
pub fn add_positions(
    rows: &mut [i32; rules::QUEUE_ROOM],
    cols: &mut [i32; rules::QUEUE_ROOM],
    colours: &mut [u32; rules::QUEUE_ROOM],
    first: usize,
    len: usize,
    positions: ForcedPositions,
) -> Result<usize, Refusal>
    requires { Ringed (slots rows.old cols.old colours.old) first len × (positions.len ≤ added_room) }
    ensures { Grows (slots_before rows cols colours) first len
        (with_positions (waiting (slots_before rows cols colours) first len) (offered positions)) result (slots_after rows cols colours) }
{
    let mut grown = len;
    for position in &positions.entries[..positions.len] {
        let answer = add_position(rows, cols, colours, first, grown, *position);
        let Ok(now) = answer else {
            return answer;
        };
        grown = now;
    }
    Ok(grown)
}
