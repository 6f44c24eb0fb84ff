// Lay and lift by the rule alone, their checks made: the piece, then the weights, then the counts.
#![tactic(auto)]

ghost use Rattle.std.specs.Prelude.{◌≡◌, ◌≤◌};
ghost use Rattle.rules.specs.Bounds.{max_colours};
ghost use Rattle.rules.specs.Grid.{entry_of, flat};
ghost use Rattle.rules.specs.Board.{laid, lifted};
ghost use Rattle.rules.specs.Promises.{board, board_before, board_after};
ghost use Rattle.board_moves.specs.Movable.{Movable};

use board_recount::recount_near;
use board_weights::{lower_near, raise_near};
use rules::{Cell, Spans};

pub fn lay_at(
    pieces: &mut [u32],
    weights: &mut [u32],
    counts: &mut [u32],
    rows: usize,
    cols: usize,
    tiles: &[u8],
    cell: Cell,
    spans: Spans,
    colour: u32,
)
    requires { (Movable (board pieces.old weights.old counts.old) rows cols tiles.now cell spans) × (colour ≤ max_colours) }
    ensures { board_after pieces weights counts ≡ laid (flat rows cols) tiles.now (board_before pieces weights counts) (entry_of cols cell) colour }
{
    let k = cell.0 * cols + cell.1;
    pieces[k] = colour + 1;
    raise_near(weights, rows, cols, cell, spans);
    recount_near(counts, pieces, rows, cols, tiles, spans);
}

pub fn lift_at(
    pieces: &mut [u32],
    weights: &mut [u32],
    counts: &mut [u32],
    rows: usize,
    cols: usize,
    tiles: &[u8],
    cell: Cell,
    spans: Spans,
)
    requires { Movable (board pieces.old weights.old counts.old) rows cols tiles.now cell spans }
    ensures { board_after pieces weights counts ≡ lifted (flat rows cols) tiles.now (board_before pieces weights counts) (entry_of cols cell) }
{
    let k = cell.0 * cols + cell.1;
    pieces[k] = rules::BARE_PIECE;
    lower_near(weights, rows, cols, cell, spans);
    recount_near(counts, pieces, rows, cols, tiles, spans);
}
