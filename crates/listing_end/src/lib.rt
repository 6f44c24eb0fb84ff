// What stands under the steps' answers: the planes and the scan.
#![tactic(auto)]

ghost use Rattle.std.specs.Prelude.{◌≡◌, true, ◌++◌, ◌≤◌};
ghost use Rattle.rules.specs.Bounds.{max_cells};
ghost use Rattle.rules.specs.Number.{number};
ghost use Rattle.rules.specs.Tests.{board_sides};
ghost use Rattle.rules.specs.Promises.{before, after, board};
ghost use Rattle.listing_lines.specs.Lines.{plane_text};
ghost use Rattle.listing_lines.specs.Pages.{Prints};
ghost use Rattle.listing_end.specs.Ending.{refused_line, planes_text, dead_end_text, scan_text, end_text, panel_with};
ghost use Rattle.listing_end.specs.Near.{Near};

use listing_job::Setup;
use rules::{Cell, Refusal};

// A plane under its heading.
fn put_headed(
    out: &mut [u8],
    at: usize,
    heading: &[u8],
    least: u32,
    plane: &[u32],
    cols: usize,
) -> usize
    ensures { Prints (heading.now ++ plane_text least plane.now cols) at (before out) result (after out) }
{
    let next = listing_lines::put_text(out, at, heading);
    listing_lines::put_plane(out, next, least, plane, cols)
}

fn put_planes(
    out: &mut [u8],
    at: usize,
    pieces: &[u32],
    weights: &[u32],
    counts: &[u32],
    cols: usize,
) -> usize
    ensures { Prints (planes_text (board pieces.now weights.now counts.now) cols) at (before out) result (after out) }
{
    let second = put_headed(out, at, b"pieces\n", rules::BARE_PIECE, pieces, cols);
    let third = put_headed(out, second, b"weights\n", 0, weights, cols);
    put_headed(out, third, b"fits\n", 0, counts, cols)
}

// `refused N`, on a line of its own. N is a number and no `Refusal`: what is promised is promised of any number.
pub fn put_refused(out: &mut [u8], at: usize, n: u8) -> usize
    ensures { Prints (refused_line n) at (before out) result (after out) }
{
    let next = listing_lines::put_text(out, at, b"refused ");
    listing_lines::put_number_line(out, next, u32::from(n))
}

fn put_dead_end(out: &mut [u8], at: usize, cell: Cell) -> usize
    requires { (cell.0 ≤ max_cells) × (cell.1 ≤ max_cells) }
    ensures { Prints (dead_end_text cell) at (before out) result (after out) }
{
    let row = listing_lines::put_text(out, at, b"dead end ");
    let blank = listing_lines::put_number(out, row, cell.0 as u32);
    let col = listing_lines::put_text(out, blank, b" ");
    listing_lines::put_number_line(out, col, cell.1 as u32)
}

#[tactic(auto, unfolding(crate::specs::Ending::scan_text))]
fn put_scan(out: &mut [u8], at: usize, found: Result<Option<Cell>, Refusal>) -> usize
    requires { Near found }
    ensures { Prints (scan_text found) at (before out) result (after out) }
{
    match found {
        Ok(Some(cell)) => put_dead_end(out, at, cell),
        Ok(None) => listing_lines::put_text(out, at, b"dead end none\n"),
        Err(refusal) => put_refused(out, at, u8::from(refusal)),
    }
}

pub fn put_end(
    out: &mut [u8],
    at: usize,
    pieces: &[u32],
    weights: &[u32],
    counts: &[u32],
    tiles: &[u8],
    setup: Setup,
) -> usize
    requires { board_sides setup.board.rows setup.board.cols ≡ true }
    ensures { Prints (end_text (panel_with setup tiles.now) setup.count (board pieces.now weights.now counts.now)) at (before out) result (after out) }
{
    let next = put_planes(out, at, pieces, weights, counts, setup.board.cols);
    let found = fit_scan::check_for_contradiction(
        pieces,
        weights,
        setup.board.rows,
        setup.board.cols,
        tiles,
        setup.count,
    );
    put_scan(out, next, found)
}
