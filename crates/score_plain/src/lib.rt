// Document 02, request 4: the plain score, the mean of the unsquared fractions of a cell's box, for the cells of two spans and for the whole
// board. The checks come first; a refused call changes nothing.
#![tactic(auto)]

ghost use Rattle.std.specs.Prelude.{◌≡◌};
ghost use Rattle.rules.specs.Answers.{checked};
ghost use Rattle.rules.specs.Scores.{whole_score_checks};
ghost use Rattle.rules.specs.Promises.{before, after, ScoresPlain, ScoresWhole};

use rules::{Refusal, Span, Spans};
use score_checks::check_counted;
use score_mean::Fractions;
use score_regions::score_region;
use score_spans::score_spans;

// The plain score of each cell of the spans.
pub fn plain_score_near(
    scores: &mut [f64],
    counts: &[u32],
    rows: usize,
    cols: usize,
    tiles: usize,
    spans: Spans,
) -> Result<(), Refusal>
    ensures { ScoresPlain rows cols counts.now tiles spans.rows spans.cols (before scores) result (after scores) }
{
    score_spans::<Fractions>(scores, counts, rows, cols, tiles, spans)
}

// The old scores are not asked about: none of them stays.
fn check_whole(
    scores: &[f64],
    counts: &[u32],
    rows: usize,
    cols: usize,
    tiles: usize,
) -> Result<(), Refusal>
    ensures { result ≡ checked (whole_score_checks scores.now counts.now rows cols tiles) }
{
    if !check_sizes::board_sides(rows, cols) {
        return Err(Refusal::Shape);
    }
    check_counted(scores, counts, rows, cols, tiles)
}

// The plain score of every cell of the board.
pub fn plain_score(
    scores: &mut [f64],
    counts: &[u32],
    rows: usize,
    cols: usize,
    tiles: usize,
) -> Result<(), Refusal>
    ensures { ScoresWhole rows cols counts.now tiles (before scores) result (after scores) }
{
    check_whole(scores, counts, rows, cols, tiles)?;
    let spans = Spans {
        rows: Span(0, rows),
        cols: Span(0, cols),
    };
    score_region::<Fractions>(scores, counts, tiles, cols, spans);
    Ok(())
}
