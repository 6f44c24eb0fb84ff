// The calls of the port for tests in another language: each hands its call the numbers and slices that it is given and tells its answer
// as crate boundary does. Lay and lift are not among them: tests call the desk's.
#![tactic(auto)]

ghost use Rattle.rules.specs.Grid.{cell_at, flat};
ghost use Rattle.rules.specs.Fit.{region_count};
ghost use Rattle.rules.specs.Forced.{dead_end};
ghost use Rattle.rules.specs.Places.{region_spans};
ghost use Rattle.rules.specs.Scores.{fraction_at};
ghost use Rattle.rules.specs.Sets.{empty_set, full_set, inserted, contained, intersected, emptiness, members_counted};
ghost use Rattle.rules.specs.Promises.{before, after, board_before, board_after, Freshens, Raises, Lowers};
ghost use Rattle.boundary_slots.specs.Slots.{world, offset_by, set_from};
ghost use Rattle.boundary.specs.Boundary.{value_stored, truth_stored, set_stored, dead_end_stored, spans_stored, Numbered, Tells};
ghost use Rattle.harness.specs.Harness.{PortLists, PortRecounts};

use boundary::{judged, set_given, written};
use boundary_longs::{counted, divided, scanned, spanned};
use boundary_slots::{offset_at, world_at};
use rules::{Cell, TileBitset};

pub fn port_listing(
    pieces: &[u32],
    rows: usize,
    cols: usize,
    tiles: &[u8],
    count: u32,
    row: i32,
    col: i32,
    down: i32,
    across: i32,
    out: &mut [u32],
) -> u32
    ensures { PortLists pieces.now rows cols tiles.now count row col down across (before out) result (after out) }
{
    set_given(
        fit::compute_viable_tiles_at_position(
            pieces,
            rows,
            cols,
            tiles,
            count,
            world_at(row, col),
            offset_at(down, across),
        ),
        out,
    )
}

pub fn port_scan(
    pieces: &[u32],
    weights: &[u32],
    rows: usize,
    cols: usize,
    tiles: &[u8],
    count: u32,
    out: &mut [u64],
) -> u32
    ensures { Tells dead_end_stored (dead_end flat pieces.now weights.now rows cols tiles.now count) (before out) result (after out) }
{
    scanned(
        fit_scan::check_for_contradiction(pieces, weights, rows, cols, tiles, count),
        out,
    )
}

pub fn port_fresh(
    pieces: &mut [u32],
    weights: &mut [u32],
    counts: &mut [u32],
    rows: usize,
    cols: usize,
    tiles: usize,
) -> u32
    ensures { Numbered (Freshens rows cols tiles (board_before pieces weights counts)) result (board_after pieces weights counts) }
{
    written(board_fresh::fresh(pieces, weights, counts, rows, cols, tiles))
}

pub fn port_get_region_spans(
    down: i32,
    across: i32,
    row: i32,
    col: i32,
    radius: usize,
    out: &mut [u64],
) -> u32
    ensures { Tells spans_stored (region_spans (offset_by down across) (world row col) radius) (before out) result (after out) }
{
    spanned(
        place_spans::get_region_spans(offset_at(down, across), world_at(row, col), radius),
        out,
    )
}

pub fn port_set_new(size: u32, out: &mut [u32]) -> u32
    ensures { Tells set_stored (empty_set size) (before out) result (after out) }
{
    set_given(bitset::new(size), out)
}

pub fn port_set_all(size: u32, out: &mut [u32]) -> u32
    ensures { Tells set_stored (full_set size) (before out) result (after out) }
{
    set_given(bitset::all(size), out)
}

pub fn port_set_insert(bits: u32, size: u32, colour: u32, out: &mut [u32]) -> u32
    ensures { Tells set_stored (inserted (set_from bits size) colour) (before out) result (after out) }
{
    set_given(bitset::insert(TileBitset { bits, size }, colour), out)
}

pub fn port_set_contains(bits: u32, size: u32, colour: u32, out: &mut [u32]) -> u32
    ensures { Tells truth_stored (contained (set_from bits size) colour) (before out) result (after out) }
{
    judged(bitset::contains(TileBitset { bits, size }, colour), out)
}

pub fn port_set_intersection(bits: u32, size: u32, others: u32, most: u32, out: &mut [u32]) -> u32
    ensures { Tells set_stored (intersected (set_from bits size) (set_from others most)) (before out) result (after out) }
{
    set_given(
        bitset::intersection(
            TileBitset { bits, size },
            TileBitset {
                bits: others,
                size: most,
            },
        ),
        out,
    )
}

pub fn port_set_is_empty(bits: u32, size: u32, out: &mut [u32]) -> u32
    ensures { Tells truth_stored (emptiness (set_from bits size)) (before out) result (after out) }
{
    judged(bitset::is_empty(TileBitset { bits, size }), out)
}

pub fn port_set_count(bits: u32, size: u32, out: &mut [u64]) -> u32
    ensures { Tells value_stored (members_counted (set_from bits size)) (before out) result (after out) }
{
    counted(bitset::count(TileBitset { bits, size }), out)
}

pub fn port_region_count(
    pieces: &[u32],
    rows: usize,
    cols: usize,
    tiles: &[u8],
    count: u32,
    row: usize,
    col: usize,
    out: &mut [u64],
) -> u32
    ensures { Tells value_stored (region_count flat pieces.now rows cols tiles.now count (cell_at row col)) (before out) result (after out) }
{
    counted(
        fit::count_fitting(pieces, rows, cols, tiles, count, Cell(row, col)),
        out,
    )
}

pub fn port_fraction(
    counts: &[u32],
    rows: usize,
    cols: usize,
    tiles: usize,
    row: usize,
    col: usize,
    out: &mut [f64],
) -> u32
    ensures { Tells value_stored (fraction_at counts.now rows cols tiles (cell_at row col)) (before out) result (after out) }
{
    divided(
        fit::get_fraction(counts, rows, cols, tiles, Cell(row, col)),
        out,
    )
}

pub fn port_raise_weights(
    weights: &mut [u32],
    rows: usize,
    cols: usize,
    row: i32,
    col: i32,
    down: i32,
    across: i32,
) -> u32
    ensures { Numbered (Raises flat rows cols (world row col) (offset_by down across) (before weights)) result (after weights) }
{
    written(board_weight_calls::raise_adjacency_weights(
        weights,
        rows,
        cols,
        world_at(row, col),
        offset_at(down, across),
    ))
}

pub fn port_lower_weights(
    weights: &mut [u32],
    rows: usize,
    cols: usize,
    row: i32,
    col: i32,
    down: i32,
    across: i32,
) -> u32
    ensures { Numbered (Lowers flat rows cols (world row col) (offset_by down across) (before weights)) result (after weights) }
{
    written(board_weight_calls::revert_adjacency_weights(
        weights,
        rows,
        cols,
        world_at(row, col),
        offset_at(down, across),
    ))
}

pub fn port_recount(
    counts: &mut [u32],
    pieces: &[u32],
    rows: usize,
    cols: usize,
    tiles: &[u8],
    count: u32,
    row: i32,
    col: i32,
    down: i32,
    across: i32,
) -> u32
    ensures { PortRecounts rows cols tiles.now count row col down across pieces.now (before counts) result (after counts) }
{
    written(board_recount::recount_feasibility(
        counts,
        pieces,
        rows,
        cols,
        tiles,
        count,
        world_at(row, col),
        offset_at(down, across),
    ))
}
