// How answers cross to another language: an answer is 0 or the refusal's number, and what a call finds goes into slices lent for it, a
// cell, a span or a set as its numbers. An entry past the end of such a slice is not stored; a refused call stores none.
#![tactic(auto)]

ghost use Rattle.std.specs.Prelude.{◌≡◌};
ghost use Rattle.rules.specs.Answers.{number_of};
ghost use Rattle.rules.specs.Promises.{before, after};
ghost use Rattle.boundary_slots.specs.Slots.{offset_stored};
ghost use Rattle.boundary.specs.Boundary.{set_stored, truth_stored, Tells};

use boundary_slots::{digit, put, put_offset};
use rules::{Offset, Refusal, TileBitset};

// The number of an answer, whatever it tells.
pub fn written<A: Copy>(answer: Result<A, Refusal>) -> u32
    ensures { result ≡ number_of answer }
{
    match answer {
        Ok(_) => 0,
        Err(refusal) => refusal as u32,
    }
}

pub fn widened(answer: Result<Offset, Refusal>, out: &mut [i32]) -> u32
    ensures { Tells offset_stored answer (before out) result (after out) }
{
    if let Ok(offset) = answer {
        put_offset(out, offset);
    }
    written(answer)
}

pub fn set_given(answer: Result<TileBitset, Refusal>, out: &mut [u32]) -> u32
    ensures { Tells set_stored answer (before out) result (after out) }
{
    if let Ok(set) = answer {
        put(out, 0, set.bits);
        put(out, 1, set.size);
    }
    written(answer)
}

pub fn judged(answer: Result<bool, Refusal>, out: &mut [u32]) -> u32
    ensures { Tells truth_stored answer (before out) result (after out) }
{
    if let Ok(truth) = answer {
        put(out, 0, digit(truth));
    }
    written(answer)
}
