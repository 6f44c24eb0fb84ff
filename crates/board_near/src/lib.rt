// What is near a cell: the distance of two cells, and the spans of radius 2 round a place on the board.
#![tactic(auto)]

ghost use Rattle.std.specs.Prelude.{◌≡◌};
ghost use Rattle.rules.specs.Grid.{cell_at, distance};
ghost use Rattle.board_near.specs.Near.{end_clipped, near_spans};

use place_spans::get_region_spans;
use places::on_board;
use rules::{Cell, Offset, Refusal, Span, Spans, World};

// The distance of `cell` and (row, col).
pub fn distance(cell: Cell, row: usize, col: usize) -> usize
    ensures { result ≡ distance cell (cell_at row col) }
{
    cell.0.abs_diff(row).max(cell.1.abs_diff(col))
}

// The span, its end clipped to the side.
fn clipped(span: Span, side: usize) -> Span
    ensures { result ≡ end_clipped side span }
{
    Span(span.0, span.1.min(side))
}

// The spans of radius 2 round a place on the board, their ends clipped to its sides; PLACE where it is off the board or out of bounds.
pub fn near_spans(rows: usize, cols: usize, place: World, offset: Offset) -> Result<Spans, Refusal>
    ensures { result ≡ near_spans rows cols place offset }
{
    let spans = get_region_spans(offset, place, 2)?;
    if !on_board(rows, cols, place, offset) {
        return Err(Refusal::Place);
    }
    Ok(Spans {
        rows: clipped(spans.rows, rows),
        cols: clipped(spans.cols, cols),
    })
}
