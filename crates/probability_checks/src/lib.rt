// The checks of the three calls on probabilities: of normalising, and of the product step and its reverse.
#![tactic(auto)]

ghost use Rattle.std.specs.Prelude.{◌≡◌, ◌&&◌};
ghost use Rattle.base.specs.Counting.{within};
ghost use Rattle.rules.specs.Answers.{checked};
ghost use Rattle.rules.specs.Bounds.{max_influence_side};
ghost use Rattle.rules.specs.Probabilities.{normalise_checks, influence_sizes, influence_checks};
ghost use Rattle.probability_influence.specs.Step.{block_of};

use rules::{Offset, Refusal, World};

// The checks of a normalising call. The place may lie off the board.
pub fn check_normalise(
    plane: &[f64],
    rows: usize,
    cols: usize,
    count: u32,
    place: World,
    offset: Offset,
    out: &[f64],
) -> Result<(), Refusal>
    ensures { result ≡ checked (normalise_checks plane.now rows cols count place offset out.now) }
{
    if !check_sizes::board_sides(rows, cols) {
        return Err(Refusal::Shape);
    }
    if !check_sizes::has_length(plane, count as usize * (rows * cols)) {
        return Err(Refusal::Length);
    }
    if !check_sizes::has_length(out, count as usize) {
        return Err(Refusal::Length);
    }
    if !check_sizes::colour_count(count) {
        return Err(Refusal::Count);
    }
    if !check_contents::all_numbers(plane) {
        return Err(Refusal::Number);
    }
    if !places::on_wall(place) {
        return Err(Refusal::Place);
    }
    if !places::offset_fits(offset) {
        return Err(Refusal::Place);
    }
    Ok(())
}

fn influence_sides(brows: usize, bcols: usize) -> bool
    ensures { result ≡ (within 1 max_influence_side brows && within 1 max_influence_side bcols) }
{
    influence_side(brows) && influence_side(bcols)
}

fn influence_side(side: usize) -> bool
    ensures { result ≡ within 1 max_influence_side side }
{
    (1..=rules::MAX_INFLUENCE_SIDE).contains(&side)
}

fn check_influence(
    plane: &[f64],
    rows: usize,
    cols: usize,
    count: u32,
    block: &[f64],
    brows: usize,
    bcols: usize,
    radius: usize,
) -> Result<(), Refusal>
    ensures { result ≡ checked (influence_sizes plane.now rows cols count (block_of brows bcols block.now) radius) }
{
    if !check_sizes::board_sides(rows, cols) {
        return Err(Refusal::Shape);
    }
    if !influence_sides(brows, bcols) {
        return Err(Refusal::Shape);
    }
    if radius > rules::MAX_RADIUS {
        return Err(Refusal::Shape);
    }
    if !check_sizes::has_length(plane, count as usize * (rows * cols)) {
        return Err(Refusal::Length);
    }
    if !check_sizes::has_length(block, count as usize * (brows * bcols)) {
        return Err(Refusal::Length);
    }
    if !check_sizes::colour_count(count) {
        return Err(Refusal::Count);
    }
    Ok(())
}

// The checks of a product step or its reverse.
pub fn check_step(
    plane: &[f64],
    rows: usize,
    cols: usize,
    count: u32,
    block: &[f64],
    brows: usize,
    bcols: usize,
    place: World,
    offset: Offset,
    radius: usize,
) -> Result<(), Refusal>
    ensures { result ≡ checked (influence_checks plane.now rows cols count (block_of brows bcols block.now) place offset radius) }
{
    check_influence(plane, rows, cols, count, block, brows, bcols, radius)?;
    if !check_contents::all_finite(plane) {
        return Err(Refusal::Number);
    }
    if !check_contents::all_finite(block) {
        return Err(Refusal::Number);
    }
    places::check_place(rows, cols, place, offset)
}
