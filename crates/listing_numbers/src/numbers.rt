// Decimal numbers parted by white space.
ghost use Rattle.std.specs.Prelude.{◌≡◌, ◌<◌, ◌≤◌, length};
ghost use Rattle.base.specs.Lent.{before, after};
ghost use Rattle.listing_numbers.specs.Decimals.{is_blank, with_digit, reading, over, numbers_in, Parses};
ghost use Rattle.listing_numbers.specs.States.{grown_state, next_state, bytes_read, state_of, found_by, held, entries, begun, Fits};
ghost use Rattle.listing_numbers.specs.Input.{input_text};

use crate::{MAX_INPUT, MAX_NUMBER, ParseError, State};

fn is_blank(blanks: &[u8], b: u8) -> bool
    ensures { result ≡ is_blank blanks.now b }
{
    blanks.contains(&b)
}

// The number n with the digit b after it, in 64 bits, since it is held against the limit only then.
fn with_digit(n: u32, b: u8) -> u64
    requires { 48 ≤ b }
    ensures { result ≡ with_digit n b }
{
    u64::from(n) * 10 + u64::from(b - b'0')
}

fn grown_by(limit: u32, k: usize, n: u32, b: u8) -> State
    ensures { result ≡ grown_state limit k n b }
{
    if !b.is_ascii_digit() {
        return State::Spoilt;
    }
    let next = with_digit(n, b);
    if u64::from(limit) < next {
        return State::Spoilt;
    }
    State::Inside(k, next as u32)
}

// One byte more.
fn after_byte(s: State, b: u8, blanks: &[u8], limit: u32) -> State
    requires { bytes_read s < 18446744073709551615 }
    ensures { result ≡ next_state blanks.now limit s b }
{
    match s {
        State::Spoilt => State::Spoilt,
        State::Between(k) => {
            if is_blank(blanks, b) {
                return State::Between(k);
            }
            grown_by(limit, k, 0, b)
        }
        State::Inside(k, n) => {
            if is_blank(blanks, b) {
                return State::Between(k + 1);
            }
            grown_by(limit, k, n, b)
        }
    }
}

// How many numbers a text is, if it is numbers, with nothing stored.
fn survey(text: &[u8], blanks: &[u8], limit: u32) -> Option<usize>
    ensures { result ≡ found_by (state_of (reading blanks.now limit text.now)) }
{
    let mut s = State::Between(0);
    for &b in text {
        s = after_byte(s, b, blanks, limit);
    }
    match s {
        State::Spoilt => None,
        State::Between(k) => Some(k),
        State::Inside(k, _) => Some(k + 1),
    }
}

fn hold(store: &mut [u32], s: State)
    requires { entries s ≤ length store.old }
    ensures { after store ≡ held s (before store) }
{
    if let State::Inside(k, n) = s {
        store[k] = n;
    }
}

// Stores the numbers of a text that is known to be numbers, and few enough.
fn keep(store: &mut [u32], text: &[u8], blanks: &[u8], limit: u32)
    requires { Fits (length store.old) (reading blanks.now limit text.now) }
    ensures { after store ≡ over (begun (reading blanks.now limit text.now)) (before store) }
{
    let mut s = State::Between(0);
    for &b in text {
        s = after_byte(s, b, blanks, limit);
        hold(store, s);
    }
}

// Reads the numbers of a text into the store, and answers how many they are; any other text, and one for which there is no room, leaves it
// as it was.
pub fn parse(store: &mut [u32], text: &[u8], blanks: &[u8], limit: u32) -> Result<usize, ParseError>
    ensures { Parses (numbers_in blanks.now limit text.now) (before store) result (after store) }
{
    let Some(n) = survey(text, blanks, limit) else {
        return Err(ParseError::Bad);
    };
    if store.len() < n {
        return Err(ParseError::Full);
    }
    keep(store, text, blanks, limit);
    Ok(n)
}

// The listing program's input.
pub fn read_input(store: &mut [u32], input: &[u8]) -> Result<usize, ParseError>
    ensures { Parses (input_text input.now) (before store) result (after store) }
{
    if MAX_INPUT < input.len() {
        return Err(ParseError::Bad);
    }
    parse(store, input, b" \n", MAX_NUMBER)
}
