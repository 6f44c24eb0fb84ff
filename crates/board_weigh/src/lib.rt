// The weight that the standing pieces alone say of a cell (demand 3): 1, plus 3 per piece at most one cell away, plus 1 per piece exactly
// two away. A piece further away adds nothing, so that at most the 25 cells round the cell are looked at.
#![tactic(auto)]

ghost use Rattle.std.specs.Prelude.{◌≡◌, ◌<◌, ◌≤◌, get_or};
ghost use Rattle.rules.specs.Bounds.{max_board_side};
ghost use Rattle.rules.specs.Grid.{entry_of, flat};
ghost use Rattle.rules.specs.Board.{weights_of};
ghost use Rattle.board_near.specs.Near.{OnPlane};
ghost use Rattle.board_weigh.specs.Added.{near_span, added_by, row_adds, box_adds, InRow, InBoard};

use board_weights::share_at;
use rules::{Cell, Span, Spans};

// The span of radius 2 round an index of a side, its end clipped to the side.
fn near_span(x: usize, side: usize) -> Span
    requires { x ≤ max_board_side }
    ensures { result ≡ near_span x side }
{
    Span(x.saturating_sub(2), (x + 3).min(side))
}

// What stands on (row, col) adds to the weight of `cell`: nothing where it is bare.
fn added_by(pieces: &[u32], cols: usize, cell: Cell, row: usize, col: usize) -> u32
    requires in_row { InRow pieces.now cols row }
    requires col_lt_cols { col < cols }
    ensures { result ≡ added_by pieces.now cols cell row col }
{
    let k = row * cols + col;
    if pieces[k] <= rules::BARE_PIECE {
        return 0;
    }
    share_at(Cell(row, col), cell.0, cell.1)
}

// What stands in the columns of the span adds, in one row.
fn row_adds(pieces: &[u32], cols: usize, cell: Cell, row: usize, colspan: Span) -> u32
    requires in_row { InRow pieces.now cols row }
    requires colspan_le_cols { colspan.1 ≤ cols }
    ensures { result ≡ row_adds pieces.now cols cell colspan row }
{
    let mut sum = 0;
    for col in colspan.0..colspan.1 {
        sum += added_by(pieces, cols, cell, row, col);
    }
    sum
}

// What stands in the rows and the columns of the spans adds.
fn box_adds(pieces: &[u32], rows: usize, cols: usize, cell: Cell, spans: Spans) -> u32
    requires in_board { InBoard pieces.now rows cols }
    requires rowspan_le_rows { spans.rows.1 ≤ rows }
    requires colspan_le_cols { spans.cols.1 ≤ cols }
    ensures { result ≡ box_adds pieces.now cols cell spans }
{
    let mut sum = 0;
    for row in spans.rows.0..spans.rows.1 {
        sum += row_adds(pieces, cols, cell, row, spans.cols);
    }
    sum
}

pub fn weight_at(pieces: &[u32], rows: usize, cols: usize, cell: Cell) -> u32
    requires { OnPlane pieces.now rows cols cell }
    ensures { result ≡ get_or (weights_of (flat rows cols) pieces.now) (entry_of cols cell) 0 }
{
    let spans = Spans {
        rows: near_span(cell.0, rows),
        cols: near_span(cell.1, cols),
    };
    1 + box_adds(pieces, rows, cols, cell, spans)
}
