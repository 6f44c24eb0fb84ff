// Document 01, "Places": a plane is copied into a larger one, of which the new cells hold 1. The larger one is filled with 1 whole,
// and then the rows are laid in it. The two calls are not one over any kind of entry, since their checks differ: only floats have NUMBER.
#![tactic(auto)]

ghost use Rattle.rules.specs.Promises.{before, after, CopiesWords, CopiesFloats};

use copy_checks::check_copy;
use copy_rows::lay_rows;
use rules::{Pads, Refusal};

// A plane of pieces, weights or counts; it may hold any numbers.
pub fn extend_array_2d_u32(
    target: &mut [u32],
    plane: &[u32],
    rows: usize,
    cols: usize,
    pads: Pads,
) -> Result<(), Refusal>
    ensures { CopiesWords rows cols pads plane.now (before target) result (after target) }
{
    check_copy(rows, cols, pads, plane.len(), target.len())?;
    target.fill(1);
    lay_rows(target, plane, rows, cols, pads);
    Ok(())
}

// A plane of probabilities or scores, which are copied bit by bit.
pub fn extend_array_2d_f64(
    target: &mut [f64],
    plane: &[f64],
    rows: usize,
    cols: usize,
    pads: Pads,
) -> Result<(), Refusal>
    ensures { CopiesFloats rows cols pads plane.now (before target) result (after target) }
{
    check_copy(rows, cols, pads, plane.len(), target.len())?;
    if !check_contents::all_numbers(plane) {
        return Err(Refusal::Number);
    }
    target.fill(1.0);
    lay_rows(target, plane, rows, cols, pads);
    Ok(())
}
