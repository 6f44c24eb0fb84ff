// The queue of a forced run, in three arrays that its caller lends: a queue handed in and back whole would stand on the stack many times
// over, and the desk's tablet has little of it. Three arrays and not one of entries: the compiler fills an array of more than 256 bytes by
// a call of the C library's memset, and the desk's archive needs no name from outside.
#![tactic(auto)]

mod lent;

ghost use Rattle.std.specs.Prelude.{◌≡◌, List, [], ◌<◌, ◌≤◌, eqb, length, drop};
ghost use Rattle.rules.specs.Answers.{next_of};
ghost use Rattle.rules.specs.Bounds.{queue_room, added_room};
ghost use Rattle.rules.specs.Forced.{offered, with_positions};
ghost use Rattle.rules.specs.declared.ForcedPosition.{ForcedPosition};
ghost use Rattle.queue_ring.specs.Slots.{slots, waiting, Ringed};
ghost use Rattle.queue_ring.specs.Waiting.{Adds};

pub use lent::{add_positions, entry_in, slot_of};
use rules::{ForcedPosition, ForcedPositions, Refusal};
use std::marker::Model;

#[derive(Drop)]
pub struct Ring<'a> {
    rows: &'a mut [i32; rules::QUEUE_ROOM],
    cols: &'a mut [i32; rules::QUEUE_ROOM],
    colours: &'a mut [u32; rules::QUEUE_ROOM],
    first: usize,
    len: usize,
}

// What the clauses see of it: the entries that wait, next out first.
impl<'a> Model for Ring<'a> {
    ghost Value = { List ForcedPosition };

    ghost view = { λ r. waiting (slots r.rows.now r.cols.now r.colours.now) r.first r.len };

    ghost invariant = { λ r. Ringed (slots r.rows.now r.cols.now r.colours.now) r.first r.len };
}

impl<'a> Ring<'a> {
    // No entry waits, whatever the arrays hold.
    pub fn new(
        rows: &'a mut [i32; rules::QUEUE_ROOM],
        cols: &'a mut [i32; rules::QUEUE_ROOM],
        colours: &'a mut [u32; rules::QUEUE_ROOM],
    ) -> Ring<'a>
        ensures { result ≡ [] }
    {
        Ring {
            rows,
            cols,
            colours,
            first: 0,
            len: 0,
        }
    }

    pub fn is_empty(&self) -> bool
        ensures { result ≡ eqb (length self.now) 0 }
    {
        self.len == 0
    }

    // Takes out the entry that is next, if one waits.
    pub fn take_next(&mut self) -> Option<ForcedPosition>
        ensures { (result ≡ next_of self.old) × (self.new ≡ drop 1 self.old) }
    {
        if self.len == 0 {
            return None;
        }
        let entry = entry_in(self.rows, self.cols, self.colours, self.first);
        self.first = slot_of(self.first, 1);
        self.len -= 1;
        Some(entry)
    }

    // All of them, or, where there is not room for all, none.
    pub fn add_positions(&mut self, positions: &ForcedPositions) -> Result<(), Refusal>
        requires { positions.now.len ≤ added_room }
        ensures { Adds (with_positions self.old (offered positions.now)) self.old result self.new }
    {
        self.len = add_positions(
            self.rows,
            self.cols,
            self.colours,
            self.first,
            self.len,
            *positions,
        )?;
        Ok(())
    }
}
