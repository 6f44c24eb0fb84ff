// The tests of document 01's refusal table that many calls share: what a plane holds. Each reads the whole of the plane that it is lent: no
// loop leaves early, so that the compiler can take many cells at a time.
#![tactic(auto)]

ghost use Rattle.std.specs.Prelude.{◌≡◌, Bool, true, ◌&&◌, ℕ, ◌<◌, leb, length, get_or};
ghost use Rattle.base.specs.Counting.{every, within};
ghost use Rattle.rules.specs.Answers.{checked};
ghost use Rattle.rules.specs.Tests.{colour_count, none_above, pieces_stored};
ghost use Rattle.rules.specs.Floats.{is_number, is_finite, all_are};
ghost use Rattle.rules.specs.Fit.{contents_checks};

use rules::Refusal;

// Every entry of a plane passes a test: by one operation each, without a branch.
fn all_pass<T: Copy, F: Fn(T) -> bool>(plane: &[T], test: F) -> bool
    requires { F.IsAlwaysCallable test }
    ensures { (f : T → Bool) (none : T) → ((x : T) (r : Bool) → F.post test x r → r ≡ f x)
        → result ≡ every (length plane.now) (λ k. f (get_or plane.now k none)) }
{
    let mut fine = true;
    for x in plane {
        fine &= test(*x);
    }
    fine
}

// The limit as a byte: no byte is above 255, so a larger one tells nothing more.
fn byte_limit(most: u32) -> u8
    ensures { (cell : ℕ) → cell < 256 → leb cell result ≡ leb cell most }
{
    u8::try_from(most).unwrap_or(u8::MAX)
}

// On bytes alone, so that the compiler compares sixteen at once.
fn byte_up_to(cell: u8, limit: u8) -> bool
    ensures { result ≡ leb cell limit }
{
    cell <= limit
}

pub fn no_byte_above(plane: &[u8], most: u32) -> bool
    ensures { result ≡ none_above plane.now most }
{
    let limit = byte_limit(most);
    all_pass(plane, |cell| byte_up_to(cell, limit))
}

pub fn no_word_above(plane: &[u32], most: u32) -> bool
    ensures { result ≡ none_above plane.now most }
{
    all_pass(plane, |cell| cell <= most)
}

fn piece_stored(piece: u32, most: u32) -> bool
    ensures { result ≡ within 1 most piece }
{
    (1 <= piece) & (piece <= most)
}

fn pieces_stored(pieces: &[u32], count: u32) -> bool
    requires { colour_count count ≡ true }
    ensures { result ≡ pieces_stored pieces.now count }
{
    let most = count + 1;
    all_pass(pieces, |piece| piece_stored(piece, most))
}

// COUNT, then CELL of the tiles and of the stored pieces.
pub fn check_colours(tiles: &[u8], count: u32, pieces: &[u32]) -> Result<(), Refusal>
    ensures { result ≡ checked (contents_checks tiles.now count pieces.now) }
{
    if !check_sizes::colour_count(count) {
        return Err(Refusal::Count);
    }
    if !no_byte_above(tiles, count) {
        return Err(Refusal::Cell);
    }
    if !pieces_stored(pieces, count) {
        return Err(Refusal::Cell);
    }
    Ok(())
}

// Not a NaN and not below zero, which -0.0 is not.
fn is_number(x: f64) -> bool
    ensures { result ≡ is_number x }
{
    0.0 <= x
}

fn is_finite(x: f64) -> bool
    ensures { result ≡ is_finite x }
{
    (0.0 <= x) & (x < f64::from_bits(0x7ff0_0000_0000_0000))
}

pub fn all_numbers(plane: &[f64]) -> bool
    ensures { result ≡ all_are is_number plane.now }
{
    all_pass(plane, is_number)
}

pub fn all_finite(plane: &[f64]) -> bool
    ensures { result ≡ all_are is_finite plane.now }
{
    all_pass(plane, is_finite)
}
