// The checks of the queue's calls, made once, on entry: SHAPE, then PLACE. ROOM is left to the adding itself.
ghost use Rattle.std.specs.Prelude.{◌≡◌};
ghost use Rattle.rules.specs.Answers.{checked};
ghost use Rattle.rules.specs.Forced.{all_on_wall, queue_checks, entry_checks};

use rules::{ForcedPipeline, ForcedPosition, ForcedPositions, Refusal};

// The loop does not leave early: of an accepted call each entry is looked at anyway.
fn all_on_wall(entries: &[ForcedPosition]) -> bool
    ensures { result ≡ all_on_wall entries.now }
{
    let mut fine = true;
    for entry in entries {
        fine &= places::on_wall(entry.coordinates);
    }
    fine
}

pub fn check_queue(queue: &ForcedPipeline) -> Result<(), Refusal>
    ensures { result ≡ checked (queue_checks queue.now) }
{
    if rules::QUEUE_ROOM < queue.len {
        return Err(Refusal::Shape);
    }
    if !all_on_wall(&queue.entries[..queue.len]) {
        return Err(Refusal::Place);
    }
    Ok(())
}

pub fn check_adding(queue: &ForcedPipeline, positions: &ForcedPositions) -> Result<(), Refusal>
    ensures { result ≡ checked (entry_checks queue.now positions.now) }
{
    if rules::QUEUE_ROOM < queue.len {
        return Err(Refusal::Shape);
    }
    if rules::ADDED_ROOM < positions.len {
        return Err(Refusal::Shape);
    }
    if !all_on_wall(&queue.entries[..queue.len]) {
        return Err(Refusal::Place);
    }
    if !all_on_wall(&positions.entries[..positions.len]) {
        return Err(Refusal::Place);
    }
    Ok(())
}
