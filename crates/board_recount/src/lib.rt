// Document 01, "Weights, counts, scores": the recount of the regions near a cell whose piece changed.
#![tactic(auto)]

ghost use Rattle.std.specs.Prelude.{◌≡◌, ◌+◌, ◌<◌, ◌≤◌, length};
ghost use Rattle.rules.specs.Answers.{checked};
ghost use Rattle.base.specs.Regions.{over_row};
ghost use Rattle.rules.specs.Bounds.{max_tiles};
ghost use Rattle.rules.specs.Grid.{flat};
ghost use Rattle.rules.specs.Board.{counted_contents, counted_planes};
ghost use Rattle.rules.specs.Promises.{before, after, panel, Recounts};
ghost use Rattle.fit_pattern.specs.Ready.{CellOn};
ghost use Rattle.fit_windows.specs.Ready.{Countable};
ghost use Rattle.board_recount.specs.Recounted.{recounted_by, recounted_in, InSpans};

use board_near::near_spans;
use check_contents::{check_colours, no_word_above};
use check_sizes::{board_sides, cells_of, has_length, tile_number};
use fit_windows::fit_count_at;
use rules::{Offset, Refusal, Spans, World};

// The count of the region that starts at (row, col): counted anew where the region lies inside the grid, else as it was.
fn count_after(
    pieces: &[u32],
    rows: usize,
    cols: usize,
    tiles: &[u8],
    row: usize,
    col: usize,
    old: u32,
) -> u32
    requires { (Countable pieces.now rows cols tiles.now) × (CellOn rows cols row col) }
    ensures { result ≡ recounted_by (flat rows cols) cols tiles.now pieces.now row col old }
{
    if rows <= row + 2 {
        return old;
    }
    if cols <= col + 2 {
        return old;
    }
    fit_count_at(pieces, rows, cols, tiles, row, col)
}

// The counts of a row from column `left` on.
fn recount_row(
    part: &mut [u32],
    pieces: &[u32],
    rows: usize,
    cols: usize,
    tiles: &[u8],
    row: usize,
    left: usize,
)
    requires { (Countable pieces.now rows cols tiles.now) × (row < rows) × (left + length part.old ≤ cols) }
    ensures { after part ≡ over_row 0 (recounted_by (flat rows cols) cols tiles.now pieces.now) row left (before part) }
{
    for (j, count) in part.iter_mut().enumerate() {
        *count = count_after(pieces, rows, cols, tiles, row, left + j, *count);
    }
}

// Region starts in the spans whose region lies inside the grid get the number of fitting tiles; other counts stay.
pub fn recount_near(
    counts: &mut [u32],
    pieces: &[u32],
    rows: usize,
    cols: usize,
    tiles: &[u8],
    spans: Spans,
)
    requires { (InSpans counts.old rows cols spans) × (Countable pieces.now rows cols tiles.now) }
    ensures { after counts ≡ recounted_in (flat rows cols) cols tiles.now pieces.now spans (before counts) }
{
    for row in spans.rows.0..spans.rows.1 {
        let from = row * cols + spans.cols.0;
        let to = row * cols + spans.cols.1;
        recount_row(
            &mut counts[from..to],
            pieces,
            rows,
            cols,
            tiles,
            row,
            spans.cols.0,
        );
    }
}

// COUNT, and CELL of all that is read; n is the number of tiles.
fn check_counted(
    counts: &[u32],
    pieces: &[u32],
    tiles: &[u8],
    count: u32,
    n: usize,
) -> Result<(), Refusal>
    requires { n ≤ max_tiles }
    ensures { result ≡ checked (counted_contents tiles.now count pieces.now counts.now n) }
{
    check_colours(tiles, count, pieces)?;
    if !no_word_above(counts, n as u32) {
        return Err(Refusal::Cell);
    }
    Ok(())
}

// SHAPE, LENGTH, COUNT and CELL of the planes and the tiles.
fn check_planes(
    counts: &[u32],
    pieces: &[u32],
    rows: usize,
    cols: usize,
    tiles: &[u8],
    count: u32,
) -> Result<(), Refusal>
    ensures { result ≡ checked (counted_planes counts.now pieces.now rows cols tiles.now count) }
{
    if !board_sides(rows, cols) {
        return Err(Refusal::Shape);
    }
    let cells = cells_of(rows, cols);
    if !has_length(counts, cells) {
        return Err(Refusal::Length);
    }
    if !has_length(pieces, cells) {
        return Err(Refusal::Length);
    }
    let n = tile_number(tiles)?;
    check_counted(counts, pieces, tiles, count, n)
}

// The recount that follows a lay or a lift.
pub fn recount_feasibility(
    counts: &mut [u32],
    pieces: &[u32],
    rows: usize,
    cols: usize,
    tiles: &[u8],
    count: u32,
    place: World,
    offset: Offset,
) -> Result<(), Refusal>
    ensures { Recounts (panel rows cols tiles.now offset) count place pieces.now (before counts) result (after counts) }
{
    check_planes(counts, pieces, rows, cols, tiles, count)?;
    let spans = near_spans(rows, cols, place, offset)?;
    recount_near(counts, pieces, rows, cols, tiles, spans);
    Ok(())
}
