// The queue of forced positions, first in, first out, as `ForcedPipeline` of the text has it: handed in and back whole, and, on that,
// two calls on a queue that is lent for change.
#![tactic(auto)]

ghost use Rattle.std.specs.Prelude.{◌≡◌, []};
ghost use Rattle.rules.specs.Forced.{queue_of, grown_by, taken_from, queue_empty, queue_length};
ghost use Rattle.rules.specs.Promises.{before, after};
ghost use Rattle.queue.specs.Promises.{TakesFrom, AddsTo};

use rules::{ForcedPipeline, ForcedPosition, ForcedPositions, Grown, Refusal, Taken};

mod checks;

// A queue with no entry.
pub fn new() -> ForcedPipeline
    ensures { result ≡ queue_of [] }
{
    queue_entries::new()
}

// Each of the positions goes to the back, unless its place is queued already.
pub fn add_positions(queue: ForcedPipeline, positions: ForcedPositions) -> Grown
    ensures { result ≡ grown_by queue positions }
{
    if let Err(refusal) = checks::check_adding(&queue, &positions) {
        return Grown {
            answer: Err(refusal),
            queue,
        };
    }
    queue_entries::add_positions(queue, positions)
}

// The position that is next out, and the queue without it.
pub fn take_next(queue: ForcedPipeline) -> Taken
    ensures { result ≡ taken_from queue }
{
    if let Err(refusal) = checks::check_queue(&queue) {
        return Taken {
            next: Err(refusal),
            queue,
        };
    }
    queue_entries::take_next(queue)
}

#[tactic(auto, using(rules::proofs::Answered::answers), unfolding(rules::specs::Forced::queue_empty, rules::specs::Forced::queue_length))]
pub fn is_empty(queue: ForcedPipeline) -> Result<bool, Refusal>
    ensures { result ≡ queue_empty queue }
{
    Ok(len(queue)? == 0)
}

#[tactic(auto, using(rules::proofs::Answered::answers), unfolding(rules::specs::Forced::queue_length))]
pub fn len(queue: ForcedPipeline) -> Result<usize, Refusal>
    ensures { result ≡ queue_length queue }
{
    checks::check_queue(&queue)?;
    Ok(queue.len)
}

// Taking, from a queue that is lent for change.
pub fn take_next_from(queue: &mut ForcedPipeline) -> Result<Option<ForcedPosition>, Refusal>
    ensures { TakesFrom (before queue) result (after queue) }
{
    let taken = take_next(*queue);
    *queue = taken.queue;
    taken.next
}

// Adding, to a queue that is lent for change.
pub fn add_positions_to(
    queue: &mut ForcedPipeline,
    positions: ForcedPositions,
) -> Result<(), Refusal>
    ensures { AddsTo positions (before queue) result (after queue) }
{
    let grown = add_positions(*queue, positions);
    *queue = grown.queue;
    grown.answer
}
