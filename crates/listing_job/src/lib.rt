// The job of the listing program: the numbers of its input, whether they are of its form and what they ask for.
#![tactic(auto)]

mod job;

pub use job::{form_of, step_end};

// Document 01, "Listing program".
pub const MAX_SAMPLE: u32 = 16;

pub const MAX_BOARD: u32 = 32;

#[derive(Clone, Copy)]
pub struct Sides {
    pub rows: usize,
    pub cols: usize,
}

#[derive(Clone, Copy)]
pub struct Setup {
    pub sample: Sides,
    pub count: u32,
    pub rotations: bool,
    pub reflections: bool,
    pub board: Sides,
}
