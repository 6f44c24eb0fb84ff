// A job's steps on its board, each with its answer on a line.
#![tactic(auto)]

ghost use Rattle.std.specs.Prelude.{◌≡◌, ◌<◌, ◌≤◌, length};
ghost use Rattle.rules.specs.Promises.{board_before, board_after};
ghost use Rattle.listing_numbers.specs.Input.{max_number};
ghost use Rattle.listing_steps.specs.Steps.{place_at, Takes};
ghost use Rattle.listing_steps.specs.Walks.{Walks, step_at, steps_from, StepsOn, RunsOn};

use boundary::written;
use listing_job::Setup;
use rules::{Offset, Refusal, World};

fn place(row: u32, col: u32) -> World
    requires { (row ≤ max_number) × (col ≤ max_number) }
    ensures { result ≡ place_at row col }
{
    World(row as i32, col as i32)
}

// The step whose numbers start at p.
fn take_step(
    pieces: &mut [u32],
    weights: &mut [u32],
    counts: &mut [u32],
    tiles: &[u8],
    setup: Setup,
    numbers: &[u32],
    p: usize,
) -> Result<(), Refusal>
    requires { (Walks numbers.now p) × (p < length numbers.now) }
    ensures { Takes setup tiles.now (step_at numbers.now p) (board_before pieces weights counts) result (board_after pieces weights counts) }
{
    let there = place(numbers[p + 1], numbers[p + 2]);
    let offset = Offset(0, 0);
    if numbers[p] == 1 {
        board::lay(
            pieces,
            weights,
            counts,
            setup.board.rows,
            setup.board.cols,
            tiles,
            setup.count,
            there,
            offset,
            numbers[p + 3],
        )
    } else {
        board::lift(
            pieces,
            weights,
            counts,
            setup.board.rows,
            setup.board.cols,
            tiles,
            setup.count,
            there,
            offset,
        )
    }
}

fn step(
    pieces: &mut [u32],
    weights: &mut [u32],
    counts: &mut [u32],
    out: &mut [u8],
    at: usize,
    tiles: &[u8],
    setup: Setup,
    numbers: &[u32],
    p: usize,
) -> usize
    requires { (Walks numbers.now p) × (p < length numbers.now) }
    ensures { StepsOn setup tiles.now (step_at numbers.now p) pieces weights counts at out result }
{
    let no = written(take_step(pieces, weights, counts, tiles, setup, numbers, p));
    listing_lines::put_number_line(out, at, no)
}

// All steps from the given number on.
pub fn run_steps(
    pieces: &mut [u32],
    weights: &mut [u32],
    counts: &mut [u32],
    out: &mut [u8],
    at: usize,
    tiles: &[u8],
    setup: Setup,
    numbers: &[u32],
    from: usize,
) -> usize
    requires { Walks numbers.now from }
    ensures { RunsOn setup tiles.now (steps_from numbers.now from) pieces weights counts at out result }
{
    let mut q = at;
    let mut p = from;
    // Steps are of two lengths, so no range counts them.
    while p < numbers.len() {
        q = step(pieces, weights, counts, out, q, tiles, setup, numbers, p);
        p = listing_job::step_end(numbers, p);
    }
    q
}
