// Document 01, "Weights, counts, scores": the mean of the fractions of the box of one cell, squared or not. Every float step is one rounded
// operation, in the order in which the text takes them.
#![tactic(auto)]

ghost use Rattle.std.specs.Prelude.{◌≡◌, true, ◌-◌, ◌<◌, ◌≤◌, length, Float};
ghost use Rattle.base.specs.Tables.{fold};
ghost use Rattle.rules.specs.Tests.{tile_number_fits};
ghost use Rattle.rules.specs.Floats.{zero64};
ghost use Rattle.rules.specs.Scores.{plus_term};
ghost use Rattle.score_mean.specs.Box.{unsquared, squared, term_of, box_row, box_rows, score_at};
ghost use Rattle.score_mean.specs.Fits.{CellFits};

// What a score sums of each fraction.
pub trait Term {
    ghost of: { Float → Float };

    fn of(fraction: f64) -> f64
        ensures { result ≡ of fraction };
}

// The fraction itself: the lay score and the plain score.
pub struct Fractions;

impl Term for Fractions {
    ghost of = { unsquared };

    fn of(fraction: f64) -> f64 {
        fraction
    }
}

// Its square: the lift score.
pub struct Squares;

impl Term for Squares {
    ghost of = { squared };

    fn of(fraction: f64) -> f64 {
        fraction * fraction
    }
}

// Fraction = count / tiles.
fn term_at<T: Term>(counts: &[u32], tiles: usize, k: usize) -> f64
    requires { (tile_number_fits tiles ≡ true) × (k < length counts.now) }
    ensures { result ≡ term_of T.of counts.now tiles k }
{
    T::of(counts[k] as f64 / tiles as f64)
}

// How many of the three rows or columns x-2..=x lie before the grid.
fn missing(x: usize) -> usize
    ensures { result ≡ 2 - x }
{
    2usize.saturating_sub(x)
}

// The sum goes on along row i of the box of the cell (r, c).
fn add_row<T: Term>(
    sum: f64,
    counts: &[u32],
    tiles: usize,
    cols: usize,
    r: usize,
    c: usize,
    i: usize,
) -> f64
    requires { CellFits counts.now cols tiles r c × (2 - r ≤ i) × (i < 3) }
    ensures { result ≡ fold (plus_term (term_of T.of counts.now tiles)) sum (box_row cols r c i) }
{
    let mut total = sum;
    for j in missing(c)..3 {
        total += term_at::<T>(counts, tiles, (r + i - 2) * cols + (c + j - 2));
    }
    total
}

// The sum over the box, row by row from 0.0.
fn box_sum<T: Term>(counts: &[u32], tiles: usize, cols: usize, r: usize, c: usize) -> f64
    requires { CellFits counts.now cols tiles r c }
    ensures { result ≡ fold (plus_term (term_of T.of counts.now tiles)) zero64 (box_rows 3 cols r c) }
{
    let mut total = 0.0;
    for i in missing(r)..3 {
        total = add_row::<T>(total, counts, tiles, cols, r, c, i);
    }
    total
}

// The mean: one division.
pub fn box_mean<T: Term>(counts: &[u32], tiles: usize, cols: usize, r: usize, c: usize) -> f64
    requires { CellFits counts.now cols tiles r c }
    ensures { result ≡ score_at T.of counts.now tiles cols r c }
{
    let cells = (3 - missing(r)) * (3 - missing(c));
    box_sum::<T>(counts, tiles, cols, r, c) / cells as f64
}
