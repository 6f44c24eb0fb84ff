// The listing program's work: the bytes that it prints for the bytes that it reads. The program itself only reads, calls and writes.
#![tactic(auto)]

mod job;

ghost use Rattle.base.specs.Lent.{before, after};
ghost use Rattle.listing_lines.specs.Pages.{Prints};
ghost use Rattle.listing_text.specs.Counts.{IsPrefixLen};
ghost use Rattle.listing_text.specs.Printed.{bad_line, numbers_text, printed};
ghost use Rattle.listing_steps.specs.Walks.{Small};

// No output is longer, so that a buffer of this length holds it whole.
pub const MAX_OUTPUT: usize = 65_536;

// One byte more than the longest input, so that a longer one is seen to be longer.
pub const INPUT_ROOM: usize = listing_numbers::MAX_INPUT + 1;

// A number takes a digit and, but for the last, a blank.
const MAX_NUMBERS: usize = listing_numbers::MAX_INPUT / 2;

fn put_bad_input(out: &mut [u8]) -> usize
    ensures { Prints bad_line 0 (before out) result (after out) }
{
    listing_lines::put_text(out, 0, b"bad input\n")
}

fn list_numbers(out: &mut [u8], numbers: &[u32]) -> usize
    requires { Small numbers.now }
    ensures { Prints (numbers_text numbers.now) 0 (before out) result (after out) }
{
    let Some(setup) = listing_job::form_of(numbers) else {
        return put_bad_input(out);
    };
    job::list_job(out, numbers, setup)
}

fn list_input(out: &mut [u8], input: &[u8]) -> usize
    ensures { Prints (printed input.now) 0 (before out) result (after out) }
{
    let mut store = [0u32; MAX_NUMBERS];
    match listing_numbers::read_input(&mut store, input) {
        Ok(n) => list_numbers(out, &store[..n]),
        Err(_) => put_bad_input(out),
    }
}

// Writes what the program prints for an input at the start of a lent buffer, and answers how many bytes that is. A shorter buffer keeps
// as much of it as fits.
pub fn list(input: &[u8], out: &mut [u8]) -> usize
    ensures prefix_len { IsPrefixLen result (after out) }
    ensures prints { Prints (printed input.now) 0 (before out) result (after out) }
{
    list_input(out, input)
}
