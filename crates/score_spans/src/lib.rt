// What the lift score and the plain score share: their checks, and a score of each cell of two spans.
#![tactic(auto)]

ghost use Rattle.std.specs.Prelude.{◌≡◌};
ghost use Rattle.rules.specs.Promises.{before, after};
ghost use Rattle.score_spans.specs.Spans.{ordered_span, ScoresSpans};

use rules::{Refusal, Span, Spans};
use score_checks::check_spans;
use score_mean::Term;
use score_regions::score_region;

// The same cells by a span that doesn't end before it starts: one whose start isn't below its end is empty.
fn ordered(span: Span) -> Span
    ensures { result ≡ ordered_span span }
{
    Span(span.0.min(span.1), span.1)
}

// Each cell of the spans gets the mean of its box, of squared fractions or of plain ones.
pub fn score_spans<T: Term>(
    scores: &mut [f64],
    counts: &[u32],
    rows: usize,
    cols: usize,
    tiles: usize,
    spans: Spans,
) -> Result<(), Refusal>
    ensures { ScoresSpans T.of rows cols counts.now tiles spans.rows spans.cols (before scores) result (after scores) }
{
    check_spans(scores, counts, rows, cols, tiles, spans)?;
    let spans = Spans {
        rows: ordered(spans.rows),
        cols: ordered(spans.cols),
    };
    score_region::<T>(scores, counts, tiles, cols, spans);
    Ok(())
}
