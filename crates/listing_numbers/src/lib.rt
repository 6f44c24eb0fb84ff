// The input of the listing program as text: its bytes as numbers.
#![tactic(auto)]

mod numbers;

pub use numbers::read_input;

// Document 01, "Listing program".
pub const MAX_INPUT: usize = 16_384;

pub const MAX_NUMBER: u32 = 1_000_000;

// Why a text is not read: it is not numbers; or it has more than the store has entries.
#[derive(Clone, Copy, Debug, PartialEq, Eq)]
pub enum ParseError {
    Bad,
    Full,
}

// How far the reading of a text has come: how many numbers are ended and, inside one, what its digits make so far.
#[derive(Clone, Copy)]
pub enum State {
    Spoilt,
    Between(usize),
    Inside(usize, u32),
}
