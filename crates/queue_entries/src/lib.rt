// The queue's entries by the rule alone: adding and taking, for a caller that has made the checks of crate queue or has a queue of its own.
// Only the lengths are asked for.
#![tactic(auto)]

ghost use Rattle.std.specs.Prelude.{◌≡◌, ◌≤◌, [], drop};
ghost use Rattle.rules.specs.Bounds.{queue_room};
ghost use Rattle.rules.specs.Places.{same_place};
ghost use Rattle.rules.specs.Forced.{queued, offered, queue_of, is_queued, with_position, with_positions};
ghost use Rattle.queue_entries.specs.Unchecked.{Part, Tidy, Adding, Adds, grown_to, next_out};

use rules::{ForcedPipeline, ForcedPosition, ForcedPositions, Grown, Refusal, Taken, World};

// A queue with no entry.
pub fn new() -> ForcedPipeline
    ensures { result ≡ queue_of [] }
{
    let none = ForcedPosition {
        coordinates: World(0, 0),
        colour: 0,
    };
    ForcedPipeline {
        entries: [none; rules::QUEUE_ROOM],
        len: 0,
    }
}

// The entries from entry `start` on, moved to entry 0; those behind them are 0.
fn rest_from(queue: ForcedPipeline, start: usize) -> ForcedPipeline
    requires { Part queue start }
    ensures { result ≡ queue_of (drop start (queued queue)) }
{
    let len = queue.len - start;
    let mut entries = new().entries;
    entries[..len].copy_from_slice(&queue.entries[start..queue.len]);
    ForcedPipeline { entries, len }
}

pub fn take_next(queue: ForcedPipeline) -> Taken
    requires { queue.len ≤ queue_room }
    ensures { result ≡ next_out (queued queue) }
{
    if queue.len == 0 {
        return Taken {
            next: Ok(None),
            queue: new(),
        };
    }
    Taken {
        next: Ok(Some(queue.entries[0])),
        queue: rest_from(queue, 1),
    }
}

// Whether two coordinates are one place.
pub fn same_place(place: World, other: World) -> bool
    ensures { result ≡ same_place place other }
{
    place == other
}

// Whether one of the entries stands at the place.
fn is_queued(queue: &ForcedPipeline, place: World) -> bool
    requires { queue.now.len ≤ queue_room }
    ensures { result ≡ is_queued place (queued queue.now) }
{
    for entry in &queue.entries[..queue.len] {
        if same_place(entry.coordinates, place) {
            return true;
        }
    }
    false
}

// One position more, at the back, unless its place is queued; ROOM where no entry is free.
fn add_position(queue: &mut ForcedPipeline, position: ForcedPosition) -> Result<(), Refusal>
    requires { Tidy queue.old }
    ensures { Adds queue.old (with_position (queued queue.old) position) result queue.new }
{
    if is_queued(queue, position.coordinates) {
        return Ok(());
    }
    if queue.len == rules::QUEUE_ROOM {
        return Err(Refusal::Room);
    }
    queue.entries[queue.len] = position;
    queue.len += 1;
    Ok(())
}

// All of them, or, where there is not room for all, none.
pub fn add_positions(queue: ForcedPipeline, positions: ForcedPositions) -> Grown
    requires { Adding queue positions }
    ensures { result ≡ grown_to queue (with_positions (queued queue) (offered positions)) }
{
    let mut grown = rest_from(queue, 0);
    for position in &positions.entries[..positions.len] {
        if let Err(refusal) = add_position(&mut grown, *position) {
            return Grown {
                answer: Err(refusal),
                queue,
            };
        }
    }
    Grown {
        answer: Ok(()),
        queue: grown,
    }
}
