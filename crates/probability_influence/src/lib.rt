// The product step and its reverse over a region, document 01, "Probabilities". Every float step is one rounded operation.
#![tactic(auto)]

ghost use Rattle.std.specs.Prelude.{◌≡◌, ◌≤◌, ltb, length, get_or};
ghost use Rattle.std.specs.Float.{nan};
ghost use Rattle.std.specs.Float.Ieee.{ne};
ghost use Rattle.base.specs.Counting.{pick};
ghost use Rattle.base.specs.Tables.{tab};
ghost use Rattle.rules.specs.Bounds.{max_influence_side};
ghost use Rattle.rules.specs.Floats.{zero64, one64, over};
ghost use Rattle.rules.specs.Promises.{before, after};
ghost use Rattle.rules.specs.Probabilities.{clipped_to, product_at, quotient_at};
ghost use Rattle.probability_influence.specs.Step.{CellStep, RowStep, StepLaws, region_in, block_of, multiplied_by, divided_by, block_row, colour_changed, colours_changed};
ghost use Rattle.probability_influence.specs.Fits.{ColourFits, StepFits};
ghost use Rattle.probability_influence.specs.Laws.{product-laws, quotient-laws};

use rules::{Span, Spans};

// Beyond the block the factor is 1.0.
fn factor(factors: &[f64], j: usize) -> f64
    ensures { result ≡ pick (ltb j (length factors.now)) (get_or factors.now j nan) one64 }
{
    if j < factors.len() { factors[j] } else { 1.0 }
}

// A factor equal to zero is skipped.
fn divided(p: f64, factor: f64) -> f64
    ensures { result ≡ pick (ne factor zero64) (over p factor) p }
{
    if factor != 0.0 { p / factor } else { p }
}

// A change of probabilities: what it makes of the probability of a cell, and of the cells of one row by the block's factors for that row.
pub trait Change {
    ghost cell: { CellStep };

    ghost entry: { RowStep };

    fn change_row(row: &mut [f64], factors: &[f64])
        ensures { after row ≡ tab (length (before row)) (λ j. entry factors.now (get_or (before row) j nan) j) };

    ghost laws: { StepLaws cell entry };
}

// The product step. Multiplying by 1.0 is a step of the text and is taken.
pub struct Product;

impl Change for Product {
    ghost cell = { product_at };

    ghost entry = { multiplied_by };

    ghost laws = { product-laws };

    fn change_row(row: &mut [f64], factors: &[f64]) {
        for (j, p) in row.iter_mut().enumerate() {
            *p = *p * factor(factors, j);
        }
    }
}

// Its reverse. Cells beyond the block are not visited.
pub struct Quotient;

impl Change for Quotient {
    ghost cell = { quotient_at };

    ghost entry = { divided_by };

    ghost laws = { quotient-laws };

    fn change_row(row: &mut [f64], factors: &[f64]) {
        // By index: tried as a walk over pairs of cell and factor, in which the loop's invariant does not see the row; the proof grew long.
        for j in 0..row.len().min(factors.len()) {
            row[j] = divided(row[j], factors[j]);
        }
    }
}

// Where row i of a block stands in it; a row past its last is empty.
fn block_row(brows: usize, bcols: usize, i: usize) -> Span
    requires { (brows ≤ max_influence_side) × (bcols ≤ max_influence_side) }
    ensures { result ≡ block_row brows bcols i }
{
    if i < brows {
        Span(i * bcols, i * bcols + bcols)
    } else {
        Span(0, 0)
    }
}

// One colour's plane. The block's entry (0, 0) goes to the first cell of the region.
fn change_colour<C: Change>(
    plane: &mut [f64],
    cols: usize,
    spans: Spans,
    block: &[f64],
    brows: usize,
    bcols: usize,
)
    requires { ColourFits plane.old block.now cols brows bcols spans.rows spans.cols }
    ensures { after plane ≡ colour_changed C.cell cols (region_in spans.rows spans.cols) (block_of brows bcols block.now) (before plane) }
{
    for r in spans.rows.0..spans.rows.1 {
        let factors = block_row(brows, bcols, r - spans.rows.0);
        let from = r * cols + spans.cols.0;
        let to = r * cols + spans.cols.1;
        C::change_row(&mut plane[from..to], &block[factors.0..factors.1]);
    }
}

// Every colour's plane, by that colour's part of the block.
pub fn change_colours<C: Change>(
    plane: &mut [f64],
    cells: usize,
    cols: usize,
    count: usize,
    spans: Spans,
    block: &[f64],
    brows: usize,
    bcols: usize,
)
    requires { StepFits plane.old block.now cells cols count brows bcols spans.rows spans.cols }
    ensures { after plane ≡ colours_changed C.cell cells cols (region_in spans.rows spans.cols) (block_of brows bcols block.now) (before plane) }
{
    let entries = brows * bcols;
    for t in 0..count {
        let from = t * cells;
        let start = t * entries;
        change_colour::<C>(
            &mut plane[from..from + cells],
            cols,
            spans,
            &block[start..start + entries],
            brows,
            bcols,
        );
    }
}

pub fn clipped(side: usize, span: Span) -> Span
    ensures { result ≡ clipped_to side span }
{
    Span(span.0.min(side), span.1.min(side))
}
