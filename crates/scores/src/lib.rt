// Document 01, "Weights, counts, scores": the score of a lay and that of a lift, each the mean of the fractions of nine regions, their
// checks first. A refused call changes nothing.
#![tactic(auto)]

ghost use Rattle.std.specs.Prelude.{◌≡◌};
ghost use Rattle.rules.specs.Answers.{checked};
ghost use Rattle.rules.specs.Scores.{lay_score_checks};
ghost use Rattle.rules.specs.Promises.{before, after, ScoresLay, ScoresLift};

use rules::{Offset, Refusal, Spans, World};
use score_checks::check_scores;
use score_mean::{Fractions, Squares};
use score_regions::{past_targets, score_region};
use score_spans::score_spans;

// How far the lay of a piece reaches; the text's name.
const ADJACENCY_LEVELS: usize = 2;

fn check_lay(
    scores: &[f64],
    counts: &[u32],
    rows: usize,
    cols: usize,
    tiles: usize,
    place: World,
    offset: Offset,
) -> Result<(), Refusal>
    ensures { result ≡ checked (lay_score_checks scores.now counts.now rows cols tiles place offset) }
{
    if !check_sizes::board_sides(rows, cols) {
        return Err(Refusal::Shape);
    }
    check_scores(scores, counts, rows, cols, tiles)?;
    places::check_place(rows, cols, place, offset)
}

// The lay score: after a lay, the mean of the fractions at each target and its neighbours.
pub fn update_feasibility(
    scores: &mut [f64],
    counts: &[u32],
    rows: usize,
    cols: usize,
    tiles: usize,
    place: World,
    offset: Offset,
) -> Result<(), Refusal>
    ensures { ScoresLay rows cols counts.now tiles place offset (before scores) result (after scores) }
{
    check_lay(scores, counts, rows, cols, tiles, place, offset)?;
    // A place that was not refused has spans.
    let round = place_spans::get_region_spans(offset, place, ADJACENCY_LEVELS)?;
    let spans = Spans {
        rows: past_targets(rows, round.rows),
        cols: past_targets(cols, round.cols),
    };
    score_region::<Fractions>(scores, counts, tiles, cols, spans);
    Ok(())
}

// The lift score: for each cell of the spans, the mean of the squared fractions.
pub fn aggregate_feasibility(
    scores: &mut [f64],
    counts: &[u32],
    rows: usize,
    cols: usize,
    tiles: usize,
    spans: Spans,
) -> Result<(), Refusal>
    ensures { ScoresLift rows cols counts.now tiles spans.rows spans.cols (before scores) result (after scores) }
{
    score_spans::<Squares>(scores, counts, rows, cols, tiles, spans)
}
