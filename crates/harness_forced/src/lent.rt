// The queue's calls in their lent form, each on a queue that the function holds itself.
ghost use Rattle.std.specs.Prelude.{◌≡◌};
ghost use Rattle.rules.specs.Forced.{grown_by, taken_from};

use rules::{ForcedPipeline, ForcedPositions, Grown, Taken};

pub fn take_next(before: ForcedPipeline) -> Taken
    ensures { result ≡ taken_from before }
{
    let mut queue = before;
    let next = queue::take_next_from(&mut queue);
    Taken { next, queue }
}

pub fn add_positions(before: ForcedPipeline, positions: ForcedPositions) -> Grown
    ensures { result ≡ grown_by before positions }
{
    let mut queue = before;
    let answer = queue::add_positions_to(&mut queue, positions);
    Grown { answer, queue }
}
