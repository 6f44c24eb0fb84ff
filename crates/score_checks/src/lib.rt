// The checks of the score calls: of the planes and the number of tiles, of the old scores where some of them stay, and of the spans' ends.
#![tactic(auto)]

ghost use Rattle.std.specs.Prelude.{◌≡◌, true};
ghost use Rattle.rules.specs.Answers.{checked};
ghost use Rattle.rules.specs.Tests.{board_sides};
ghost use Rattle.rules.specs.Scores.{counted_checks, score_checks, lift_score_checks};

use rules::{Refusal, Spans};

pub fn check_counted(
    scores: &[f64],
    counts: &[u32],
    rows: usize,
    cols: usize,
    tiles: usize,
) -> Result<(), Refusal>
    requires { board_sides rows cols ≡ true }
    ensures { result ≡ checked (counted_checks scores.now counts.now rows cols tiles) }
{
    if !check_sizes::has_length(scores, rows * cols) {
        return Err(Refusal::Length);
    }
    if !check_sizes::has_length(counts, rows * cols) {
        return Err(Refusal::Length);
    }
    if !check_sizes::tile_number_fits(tiles) {
        return Err(Refusal::Length);
    }
    if !check_contents::no_word_above(counts, tiles as u32) {
        return Err(Refusal::Cell);
    }
    Ok(())
}

pub fn check_scores(
    scores: &[f64],
    counts: &[u32],
    rows: usize,
    cols: usize,
    tiles: usize,
) -> Result<(), Refusal>
    requires { board_sides rows cols ≡ true }
    ensures { result ≡ checked (score_checks scores.now counts.now rows cols tiles) }
{
    check_counted(scores, counts, rows, cols, tiles)?;
    if !check_contents::all_finite(scores) {
        return Err(Refusal::Number);
    }
    Ok(())
}

pub fn check_spans(
    scores: &[f64],
    counts: &[u32],
    rows: usize,
    cols: usize,
    tiles: usize,
    spans: Spans,
) -> Result<(), Refusal>
    ensures { result ≡ checked (lift_score_checks scores.now counts.now rows cols tiles spans.rows spans.cols) }
{
    if !check_sizes::board_sides(rows, cols) {
        return Err(Refusal::Shape);
    }
    if spans.rows.1 > rows {
        return Err(Refusal::Shape);
    }
    if spans.cols.1 > cols {
        return Err(Refusal::Shape);
    }
    check_scores(scores, counts, rows, cols, tiles)
}
