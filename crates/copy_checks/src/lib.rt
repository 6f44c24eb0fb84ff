// The sides that pads make, and the checks that the two copies of a plane share.
#![tactic(auto)]

ghost use Rattle.std.specs.Prelude.{◌≡◌, true, ◌+◌, ◌*◌};
ghost use Rattle.base.specs.Counting.{within};
ghost use Rattle.rules.specs.Answers.{checked};
ghost use Rattle.rules.specs.Bounds.{max_board_side};
ghost use Rattle.rules.specs.Tests.{board_sides};
ghost use Rattle.rules.specs.Places.{new_rows, new_cols};
ghost use Rattle.copy_checks.specs.Laid.{size_checks};

use rules::{Pads, Refusal};

// The side that two pads make is a board side. Pads are any numbers: a sum past the largest stays there, which is no board side either.
fn side_fits(before: usize, side: usize, after: usize) -> bool
    ensures { result ≡ within 1 max_board_side ((before + side) + after) }
{
    (1..=rules::MAX_BOARD_SIDE).contains(&before.saturating_add(side).saturating_add(after))
}

pub fn larger_sides(rows: usize, cols: usize, pads: Pads) -> bool
    ensures { result ≡ board_sides (new_rows rows pads) (new_cols cols pads) }
{
    side_fits(pads.left, rows, pads.right) && side_fits(pads.top, cols, pads.bottom)
}

// How many cells the larger plane has.
pub fn larger_cells(rows: usize, cols: usize, pads: Pads) -> usize
    requires { board_sides (new_rows rows pads) (new_cols cols pads) ≡ true }
    ensures { result ≡ new_rows rows pads * new_cols cols pads }
{
    check_sizes::cells_of(pads.left + rows + pads.right, pads.top + cols + pads.bottom)
}

// The checks of both calls, on a plane of `held` cells and a target with room for `room`.
pub fn check_copy(
    rows: usize,
    cols: usize,
    pads: Pads,
    held: usize,
    room: usize,
) -> Result<(), Refusal>
    ensures { result ≡ checked (size_checks rows cols pads held room) }
{
    if !check_sizes::board_sides(rows, cols) {
        return Err(Refusal::Shape);
    }
    if !larger_sides(rows, cols, pads) {
        return Err(Refusal::Shape);
    }
    if held != check_sizes::cells_of(rows, cols) {
        return Err(Refusal::Length);
    }
    if room != larger_cells(rows, cols, pads) {
        return Err(Refusal::Length);
    }
    Ok(())
}
