// The numbers of the listing program's input, in their order.
ghost use Rattle.std.specs.Prelude.{◌≡◌, true, ◌<◌, ◌≤◌, length, get_or, drop};
ghost use Rattle.base.specs.Counting.{within};
ghost use Rattle.listing_job.specs.Form.{step_end, steps_in, is_whole, sides_up_to, head_fits, sample_cells, tail_fits, is_formed, sides_of, setup_of, form_of};

use crate::{MAX_BOARD, MAX_SAMPLE, Setup, Sides};

// The number at k, 0 past the last.
fn number(numbers: &[u32], k: usize) -> u32
    ensures { result ≡ get_or numbers.now k 0 }
{
    numbers.get(k).copied().unwrap_or(0)
}

fn side_up_to(most: u32, side: u32) -> bool
    ensures { result ≡ within 1 most side }
{
    1 <= side && side <= most
}

fn sides_up_to(most: u32, rows: u32, cols: u32) -> bool
    ensures { result ≡ sides_up_to most rows cols }
{
    side_up_to(most, rows) && side_up_to(most, cols)
}

// Where the step that starts at p ends; past the last number where none starts so.
pub fn step_end(numbers: &[u32], p: usize) -> usize
    requires { p < length numbers.now }
    ensures { result ≡ step_end numbers.now p }
{
    match numbers[p] {
        1 => p + 4,
        2 => p + 3,
        _ => numbers.len() + 1,
    }
}

// The numbers from the given one on are whole steps.
fn are_steps(numbers: &[u32], from: usize) -> bool
    requires { from ≤ length numbers.now }
    ensures { result ≡ is_whole (steps_in (drop from numbers.now)) }
{
    let mut p = from;
    // Steps are of two lengths, so no range counts them.
    while p < numbers.len() {
        p = step_end(numbers, p);
    }
    p == numbers.len()
}

fn head_fits(numbers: &[u32]) -> bool
    ensures { result ≡ head_fits numbers.now }
{
    sides_up_to(MAX_SAMPLE, number(numbers, 0), number(numbers, 1))
        && number(numbers, 3) <= 1
        && number(numbers, 4) <= 1
}

fn tail_fits(numbers: &[u32], cells: usize) -> bool
    requires { cells ≤ 256 }
    ensures { result ≡ tail_fits numbers.now cells }
{
    cells + 7 <= numbers.len()
        && sides_up_to(
            MAX_BOARD,
            number(numbers, cells + 5),
            number(numbers, cells + 6),
        )
        && are_steps(numbers, cells + 7)
}

// How many cells the sample has.
fn sample_cells(numbers: &[u32]) -> usize
    requires { head_fits numbers.now ≡ true }
    ensures { result ≡ sample_cells numbers.now }
{
    number(numbers, 0) as usize * number(numbers, 1) as usize
}

fn is_formed(numbers: &[u32]) -> bool
    ensures { result ≡ is_formed numbers.now }
{
    head_fits(numbers) && tail_fits(numbers, sample_cells(numbers))
}

fn sides(rows: u32, cols: u32) -> Sides
    ensures { result ≡ sides_of rows cols }
{
    Sides {
        rows: rows as usize,
        cols: cols as usize,
    }
}

fn setup_of(numbers: &[u32]) -> Setup
    requires { head_fits numbers.now ≡ true }
    ensures { result ≡ setup_of numbers.now }
{
    let cells = sample_cells(numbers);
    Setup {
        sample: sides(number(numbers, 0), number(numbers, 1)),
        count: number(numbers, 2),
        rotations: number(numbers, 3) == 1,
        reflections: number(numbers, 4) == 1,
        board: sides(number(numbers, cells + 5), number(numbers, cells + 6)),
    }
}

// The job that the numbers make, if they are of its form.
pub fn form_of(numbers: &[u32]) -> Option<Setup>
    ensures { result ≡ form_of numbers.now }
{
    if is_formed(numbers) {
        Some(setup_of(numbers))
    } else {
        None
    }
}
