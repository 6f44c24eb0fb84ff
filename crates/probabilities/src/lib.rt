// Document 01, "Probabilities": the three calls, their checks first. All probabilities stand in one plane, colour by colour, each row by
// row.
#![tactic(auto)]

ghost use Rattle.rules.specs.Promises.{before, after, Normalises, Multiplies, Divides};
ghost use Rattle.probability_influence.specs.Step.{block_of};
ghost use Rattle.probabilities.specs.Calls.{Changes};

use probability_checks::{check_normalise, check_step};
use probability_influence::{Change, Product, Quotient, change_colours, clipped};
use probability_normal::take_place;
use rules::{Offset, Refusal, Spans, World};

// Each colour's probability at a place, normalised, into out.
pub fn get_tile_probabilities_at_position(
    probabilities: &[f64],
    rows: usize,
    cols: usize,
    count: u32,
    place: World,
    offset: Offset,
    out: &mut [f64],
) -> Result<(), Refusal>
    ensures { Normalises probabilities.now rows cols count place offset (before out) result (after out) }
{
    check_normalise(probabilities, rows, cols, count, place, offset, out)?;
    take_place(probabilities, rows, cols, count, place, offset, out);
    probability_normal::normalise(out, count);
    Ok(())
}

fn change_probabilities<C: Change>(
    probabilities: &mut [f64],
    rows: usize,
    cols: usize,
    count: u32,
    block: &[f64],
    brows: usize,
    bcols: usize,
    place: World,
    offset: Offset,
    radius: usize,
) -> Result<(), Refusal>
    ensures { Changes C.cell rows cols count (block_of brows bcols block.now) place offset radius
        (before probabilities) result (after probabilities) }
{
    check_step(
        probabilities,
        rows,
        cols,
        count,
        block,
        brows,
        bcols,
        place,
        offset,
        radius,
    )?;
    // A place that was not refused has spans.
    let round = place_spans::get_region_spans(offset, place, radius)?;
    let spans = Spans {
        rows: clipped(rows, round.rows),
        cols: clipped(cols, round.cols),
    };
    change_colours::<C>(
        probabilities,
        rows * cols,
        cols,
        count as usize,
        spans,
        block,
        brows,
        bcols,
    );
    Ok(())
}

// The product step: each probability in the clipped region by the chosen colour's influence block.
pub fn update_probabilities(
    probabilities: &mut [f64],
    rows: usize,
    cols: usize,
    count: u32,
    block: &[f64],
    blockrows: usize,
    blockcols: usize,
    place: World,
    offset: Offset,
    radius: usize,
) -> Result<(), Refusal>
    ensures { Multiplies rows cols count (block_of blockrows blockcols block.now) place offset radius
        (before probabilities) result (after probabilities) }
{
    change_probabilities::<Product>(
        probabilities,
        rows,
        cols,
        count,
        block,
        blockrows,
        blockcols,
        place,
        offset,
        radius,
    )
}

// Its reverse.
pub fn revert_probabilities(
    probabilities: &mut [f64],
    rows: usize,
    cols: usize,
    count: u32,
    block: &[f64],
    blockrows: usize,
    blockcols: usize,
    place: World,
    offset: Offset,
    radius: usize,
) -> Result<(), Refusal>
    ensures { Divides rows cols count (block_of blockrows blockcols block.now) place offset radius
        (before probabilities) result (after probabilities) }
{
    change_probabilities::<Quotient>(
        probabilities,
        rows,
        cols,
        count,
        block,
        blockrows,
        blockcols,
        place,
        offset,
        radius,
    )
}
