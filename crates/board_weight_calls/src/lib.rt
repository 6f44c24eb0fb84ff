// Document 01, "Weights, counts, scores": the two calls on a weights plane, their checks first. A refused call changes nothing.
#![tactic(auto)]

ghost use Rattle.std.specs.Prelude.{◌≡◌, Err, MatchResult};
ghost use Rattle.base.specs.Refusal.{refusal};
ghost use Rattle.rules.specs.Answers.{checked};
ghost use Rattle.rules.specs.Grid.{flat};
ghost use Rattle.rules.specs.Places.{cell_of};
ghost use Rattle.rules.specs.Board.{weight_checks};
ghost use Rattle.rules.specs.Promises.{before, after, Raises, Lowers};
ghost use Rattle.board_near.specs.Near.{Nearby};

use board_near::near_spans;
use board_weights::{lower_near, raise_near};
use check_contents::no_word_above;
use check_sizes::{board_sides, cells_of, has_length};
use places::cell_of;
use rules::{Offset, Refusal, Spans, World};

// The checks of a call on a weights plane, and where they pass the spans of radius 2 round the place.
fn check_weights(
    weights: &[u32],
    rows: usize,
    cols: usize,
    place: World,
    offset: Offset,
) -> Result<Spans, Refusal>
    ensures { MatchResult result
        (λ spans. (0 ≡ refusal (weight_checks weights.now rows cols place offset)) × Nearby rows cols (cell_of place offset) spans)
        (λ r. Err r ≡ checked (weight_checks weights.now rows cols place offset)) }
{
    if !board_sides(rows, cols) {
        return Err(Refusal::Shape);
    }
    if !has_length(weights, cells_of(rows, cols)) {
        return Err(Refusal::Length);
    }
    if !no_word_above(weights, rules::MAX_WEIGHT) {
        return Err(Refusal::Cell);
    }
    near_spans(rows, cols, place, offset)
}

// The weights that the text's `update_grid_state` adds for a piece.
pub fn raise_adjacency_weights(
    weights: &mut [u32],
    rows: usize,
    cols: usize,
    place: World,
    offset: Offset,
) -> Result<(), Refusal>
    ensures { Raises flat rows cols place offset (before weights) result (after weights) }
{
    let spans = check_weights(weights, rows, cols, place, offset)?;
    raise_near(weights, rows, cols, cell_of(place, offset), spans);
    Ok(())
}

// The weights that it takes back.
pub fn revert_adjacency_weights(
    weights: &mut [u32],
    rows: usize,
    cols: usize,
    place: World,
    offset: Offset,
) -> Result<(), Refusal>
    ensures { Lowers flat rows cols place offset (before weights) result (after weights) }
{
    let spans = check_weights(weights, rows, cols, place, offset)?;
    lower_near(weights, rows, cols, cell_of(place, offset), spans);
    Ok(())
}
