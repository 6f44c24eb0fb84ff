// Document 01, "Weights, counts, scores": the weights that a piece adds and takes back by the rule alone, its checks made. The loops run
// over the span of radius 2 round the piece and leave every other cell alone.
#![tactic(auto)]

ghost use Rattle.std.specs.Prelude.{◌≡◌, ℕ, ◌+◌, ◌-◌, ◌<◌, ◌≤◌, length};
ghost use Rattle.base.specs.Regions.{over_row, over_region};
ghost use Rattle.rules.specs.Bounds.{max_board_side};
ghost use Rattle.rules.specs.Grid.{cell_at, entry_of, distance, flat};
ghost use Rattle.rules.specs.Board.{share, raised, lowered};
ghost use Rattle.rules.specs.Promises.{before, after};
ghost use Rattle.board_near.specs.Near.{OnPlane, Nearby};
ghost use Rattle.board_weights.specs.Shares.{changed_by, Ready, Light};

use board_near::distance;
use rules::{Cell, Spans};

// What a piece on `cell` adds at (row, col).
pub fn share_at(cell: Cell, row: usize, col: usize) -> u32
    ensures { result ≡ share (distance cell (cell_at row col)) }
{
    match distance(cell, row, col) {
        0..=1 => 3,
        2 => 1,
        _ => 0,
    }
}

// What a share makes of a weight.
trait Step {
    ghost becomes: { ℕ → ℕ → ℕ };

    ghost can_step: { ℕ → ℕ → Type 0 };

    fn step(weight: u32, share: u32) -> u32
        requires { can_step weight share }
        ensures { result ≡ becomes weight share };
}

struct Raise;

impl Step for Raise {
    ghost becomes = { ◌+◌ };

    ghost can_step = { λ weight share. weight + share < 4294967296 };

    fn step(weight: u32, share: u32) -> u32 {
        weight + share
    }
}

struct Lower;

impl Step for Lower {
    ghost becomes = { ◌-◌ };

    ghost can_step = { λ weight share. Unit {0} };

    fn step(weight: u32, share: u32) -> u32 {
        weight.saturating_sub(share)
    }
}

// Takes the step at each weight of `part`, which is a part of a row: it starts at column `left`.
fn change_row<S: Step>(part: &mut [u32], cell: Cell, row: usize, left: usize)
    requires { (left + length part.old ≤ max_board_side) × (Ready S.can_step part.old) }
    ensures { after part ≡ over_row 0 (changed_by S.becomes cell) row left (before part) }
{
    for (j, weight) in part.iter_mut().enumerate() {
        *weight = S::step(*weight, share_at(cell, row, left + j));
    }
}

// Takes the step at each weight of the spans.
fn change_near<S: Step>(weights: &mut [u32], rows: usize, cols: usize, cell: Cell, spans: Spans)
    requires { (OnPlane weights.old rows cols cell) × (Nearby rows cols cell spans) × (Ready S.can_step weights.old) }
    ensures { after weights ≡ over_region 0 (changed_by S.becomes cell) cols spans.rows.0 spans.rows.1 spans.cols.0 spans.cols.1 (before weights) }
{
    for row in spans.rows.0..spans.rows.1 {
        let from = row * cols + spans.cols.0;
        let to = row * cols + spans.cols.1;
        change_row::<S>(&mut weights[from..to], cell, row, spans.cols.0);
    }
}

// Lay adds 3 to weights at distance 0 or 1 and 1 at distance 2.
pub fn raise_near(weights: &mut [u32], rows: usize, cols: usize, cell: Cell, spans: Spans)
    requires { (OnPlane weights.old rows cols cell) × (Nearby rows cols cell spans) × (Light weights.old) }
    ensures { after weights ≡ raised (flat rows cols) (entry_of cols cell) (before weights) }
{
    change_near::<Raise>(weights, rows, cols, cell, spans);
}

// Lift subtracts the same, stopping at 0.
pub fn lower_near(weights: &mut [u32], rows: usize, cols: usize, cell: Cell, spans: Spans)
    requires { (OnPlane weights.old rows cols cell) × (Nearby rows cols cell spans) }
    ensures { after weights ≡ lowered (flat rows cols) (entry_of cols cell) (before weights) }
{
    change_near::<Lower>(weights, rows, cols, cell, spans);
}
