// The scores of the cells of two spans by the rule alone, the checks made, and the cells that the targets of a lay write.
#![tactic(auto)]

ghost use Rattle.std.specs.Prelude.{◌≡◌, true, ◌+◌, ◌*◌, ◌≤◌, length};
ghost use Rattle.std.specs.Float.{nan};
ghost use Rattle.base.specs.Regions.{over_row};
ghost use Rattle.rules.specs.Bounds.{max_board_side};
ghost use Rattle.rules.specs.Tests.{tile_number_fits};
ghost use Rattle.rules.specs.Promises.{before, after};
ghost use Rattle.score_regions.specs.Region.{score_step, region_scored, past_targets, ScoresFit};

use rules::{Span, Spans};
use score_mean::{Term, box_mean};

// The cells of row r from the column left on.
fn score_row<T: Term>(
    row: &mut [f64],
    counts: &[u32],
    tiles: usize,
    cols: usize,
    r: usize,
    left: usize,
)
    requires { (tile_number_fits tiles ≡ true) × (r * cols + cols ≤ length counts.now) × (left + length row.old ≤ cols) }
    ensures { after row ≡ over_row nan (score_step T.of counts.now tiles cols) r left (before row) }
{
    for (j, score) in row.iter_mut().enumerate() {
        *score = box_mean::<T>(counts, tiles, cols, r, left + j);
    }
}

pub fn score_region<T: Term>(
    scores: &mut [f64],
    counts: &[u32],
    tiles: usize,
    cols: usize,
    spans: Spans,
)
    requires { ScoresFit scores.old counts.now cols tiles spans.rows spans.cols }
    ensures { after scores ≡ region_scored T.of counts.now tiles cols spans.rows spans.cols (before scores) }
{
    for r in spans.rows.0..spans.rows.1 {
        let from = r * cols + spans.cols.0;
        let to = r * cols + spans.cols.1;
        score_row::<T>(&mut scores[from..to], counts, tiles, cols, r, spans.cols.0);
    }
}

// The cells that the targets of a lay write. Targets run from the span's start + 1 up to its end, and each writes the cell one further;
// a write off the board is dropped.
pub fn past_targets(side: usize, span: Span) -> Span
    requires { (span.0 ≤ max_board_side) × (span.1 ≤ 2 * max_board_side) }
    ensures { result ≡ past_targets side span }
{
    let end = (span.1 + 1).min(side);
    Span((span.0 + 2).min(end), end)
}
