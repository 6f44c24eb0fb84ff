// Document 01, "Fit", forced neighbours: the text's `detect_forced_positions`. A neighbour outside the box or the grid, or laid, is not
// listed.
#![tactic(auto)]

ghost use Rattle.std.specs.Prelude.{◌≡◌, true, List, [], ◌<◌, pos, ◌+ℤ◌, ◌-ℤ◌};
ghost use Rattle.base.specs.Whole.{within_z};
ghost use Rattle.rules.specs.Answers.{checked};
ghost use Rattle.rules.specs.Bounds.{added_room, min_coordinate, max_coordinate};
ghost use Rattle.rules.specs.Tests.{on_wall};
ghost use Rattle.rules.specs.Grid.{entry_of, flat};
ghost use Rattle.rules.specs.Forced.{neighbour, admits, bounds_fit, forced_round, positions_of, forced_checks, forced_neighbours};
ghost use Rattle.rules.specs.declared.ForcedPosition.{ForcedPosition};
ghost use Rattle.fit_pattern.specs.Ready.{CellOn};
ghost use Rattle.fit_windows.specs.Ready.{Ready};
ghost use Rattle.fit_forced.specs.Round.{Roundable, only_at, forced_colour, with_forced};

use rules::{BoundingBox, Cell, ForcedPosition, ForcedPositions, Offset, Refusal, World};

// The eight neighbours row by row, by their numbers in the 3x3; the place itself is 4.
const ROUND_ORDER: [usize; rules::ADDED_ROOM] = [0, 1, 2, 3, 5, 6, 7, 8];

// The coordinate one back from this one and so many steps on.
fn beside(coordinate: i32, step: usize) -> i32
    requires coordinate_value { within_z min_coordinate max_coordinate coordinate ≡ true }
    requires step_bound { step < 3 }
    ensures { result ≡ (coordinate +ℤ pos step) -ℤ pos 1 }
{
    coordinate + step as i32 - 1
}

// The neighbour with number d in the 3x3 round a place. It may lie off the wall, where no cell has its index.
fn neighbour_at(place: World, d: usize) -> World
    requires place_value { on_wall place ≡ true }
    requires d_bound { d < 9 }
    ensures { result ≡ neighbour place d }
{
    World(beside(place.0, d / 3), beside(place.1, d % 3))
}

// Not outside the box, if one is given.
#[tactic(auto, unfolding(rules::specs::Forced::admits))]
fn admitted(bounds: Option<BoundingBox>, place: World) -> bool
    ensures { result ≡ admits bounds place }
{
    // `is_none_or` with a closure was tried, here and in `bounds_fit`: its proof did not close.
    match bounds {
        Some(corners) => place_boxes::in_box(corners, place),
        None => true,
    }
}

// The corners of the box, if one is given, are on the wall.
#[tactic(auto, unfolding(rules::specs::Forced::bounds_fit))]
pub fn bounds_fit(bounds: Option<BoundingBox>) -> bool
    ensures { result ≡ bounds_fit bounds }
{
    match bounds {
        Some(corners) => place_boxes::box_fits(corners),
        None => true,
    }
}

// The only colour that a bare cell lists, 0 where there is none or more than one, or where the cell is laid. The listing is no refusal,
// since the checks are made; were it one, no colour would be forced there.
pub fn only_colour_at(
    pieces: &[u32],
    rows: usize,
    cols: usize,
    tiles: &[u8],
    count: u32,
    cell: Cell,
) -> u32
    requires ready { Ready pieces.now rows cols tiles.now count }
    requires cell_on { CellOn rows cols cell.0 cell.1 }
    ensures { result ≡ only_at (flat rows cols) tiles.now pieces.now count (entry_of cols cell) }
{
    let at = cell.0 * cols + cell.1;
    if pieces[at] > rules::BARE_PIECE {
        return 0;
    }
    let Ok(set) = fit_windows::viable_tiles_at(pieces, rows, cols, tiles, count, cell) else {
        return 0;
    };
    bitset_colours::only_colour(set.bits)
}

// The colour that is forced at a place, 0 where none is.
fn forced_colour(
    pieces: &[u32],
    rows: usize,
    cols: usize,
    tiles: &[u8],
    count: u32,
    place: World,
    offset: Offset,
    bounds: Option<BoundingBox>,
) -> u32
    requires { Ready pieces.now rows cols tiles.now count }
    ensures { result ≡ forced_colour flat pieces.now rows cols tiles.now count place offset bounds }
{
    if !admitted(bounds, place) {
        return 0;
    }
    if !places::on_board(rows, cols, place, offset) {
        return 0;
    }
    let cell = places::cell_of(place, offset);
    only_colour_at(pieces, rows, cols, tiles, count, cell)
}

// No position, and 0 in every entry.
fn no_positions() -> ForcedPositions
    ensures { result ≡ positions_of [] }
{
    let none = ForcedPosition {
        coordinates: World(0, 0),
        colour: 0,
    };
    ForcedPositions {
        entries: [none; rules::ADDED_ROOM],
        len: 0,
    }
}

// One position more, unless its colour is 0.
fn add_forced(found: &mut ForcedPositions, place: World, colour: u32)
    requires { found.old.len < added_room }
    ensures { (l : List ForcedPosition) → found.old ≡ positions_of l → found.new ≡ positions_of (with_forced l place colour) }
{
    if colour == 0 {
        return;
    }
    found.entries[found.len] = ForcedPosition {
        coordinates: place,
        colour,
    };
    found.len += 1;
}

// The forced neighbours of a place, for calls that have made the checks.
pub fn forced_round(
    pieces: &[u32],
    rows: usize,
    cols: usize,
    tiles: &[u8],
    count: u32,
    place: World,
    offset: Offset,
    bounds: Option<BoundingBox>,
) -> ForcedPositions
    requires { Roundable pieces.now rows cols tiles.now count place }
    ensures { result ≡ positions_of (forced_round flat pieces.now rows cols tiles.now count place offset bounds) }
{
    let mut found = no_positions();
    for d in &ROUND_ORDER {
        let there = neighbour_at(place, *d);
        let colour = forced_colour(pieces, rows, cols, tiles, count, there, offset, bounds);
        add_forced(&mut found, there, colour);
    }
    found
}

// The checks of the call's input.
pub fn check_forced(
    pieces: &[u32],
    rows: usize,
    cols: usize,
    tiles: &[u8],
    count: u32,
    place: World,
    offset: Offset,
    bounds: Option<BoundingBox>,
) -> Result<(), Refusal>
    ensures { result ≡ checked (forced_checks pieces.now rows cols tiles.now count place offset bounds) }
{
    fit::check_pieces(pieces, rows, cols, tiles, count)?;
    places::check_place(rows, cols, place, offset)?;
    if !bounds_fit(bounds) {
        return Err(Refusal::Place);
    }
    Ok(())
}

// The neighbours of a place that only one colour fits, row by row.
pub fn detect_forced_positions(
    pieces: &[u32],
    rows: usize,
    cols: usize,
    tiles: &[u8],
    count: u32,
    place: World,
    offset: Offset,
    bounds: Option<BoundingBox>,
) -> Result<ForcedPositions, Refusal>
    ensures { result ≡ forced_neighbours flat pieces.now rows cols tiles.now count place offset bounds }
{
    check_forced(pieces, rows, cols, tiles, count, place, offset, bounds)?;
    Ok(forced_round(pieces, rows, cols, tiles, count, place, offset, bounds))
}
