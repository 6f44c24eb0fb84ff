// Exports for the comparison with the text, for C: each hands on what crate harness has under the same name.
#![tactic(auto)]

ghost use Rattle.rules.specs.Grid.{cell_at, flat};
ghost use Rattle.rules.specs.Fit.{region_count};
ghost use Rattle.rules.specs.Forced.{dead_end};
ghost use Rattle.rules.specs.Places.{region_spans};
ghost use Rattle.rules.specs.Scores.{fraction_at};
ghost use Rattle.rules.specs.Sets.{empty_set, full_set, inserted, contained, intersected, emptiness, members_counted};
ghost use Rattle.rules.specs.Promises.{before, after, board_before, board_after, Freshens, Raises, Lowers};
ghost use Rattle.boundary_slots.specs.Slots.{world, offset_by, set_from};
ghost use Rattle.boundary.specs.Boundary.{value_stored, truth_stored, set_stored, dead_end_stored, spans_stored, Numbered, Tells};
ghost use Rattle.harness.specs.Harness.{PortLists, PortRecounts};

#[unsafe(no_mangle)]
pub extern "C" fn port_listing(
    pieces: &[u32],
    rows: usize,
    cols: usize,
    tiles: &[u8],
    count: u32,
    row: i32,
    col: i32,
    down: i32,
    across: i32,
    out: &mut [u32],
) -> u32
    ensures { PortLists pieces.now rows cols tiles.now count row col down across (before out) result (after out) }
{
    harness::port_listing(
        pieces, rows, cols, tiles, count, row, col, down, across, out,
    )
}

#[unsafe(no_mangle)]
pub extern "C" fn port_scan(
    pieces: &[u32],
    weights: &[u32],
    rows: usize,
    cols: usize,
    tiles: &[u8],
    count: u32,
    out: &mut [u64],
) -> u32
    ensures { Tells dead_end_stored (dead_end flat pieces.now weights.now rows cols tiles.now count) (before out) result (after out) }
{
    harness::port_scan(pieces, weights, rows, cols, tiles, count, out)
}

#[unsafe(no_mangle)]
pub extern "C" fn port_fresh(
    pieces: &mut [u32],
    weights: &mut [u32],
    counts: &mut [u32],
    rows: usize,
    cols: usize,
    tiles: usize,
) -> u32
    ensures { Numbered (Freshens rows cols tiles (board_before pieces weights counts)) result (board_after pieces weights counts) }
{
    harness::port_fresh(pieces, weights, counts, rows, cols, tiles)
}

#[unsafe(no_mangle)]
pub extern "C" fn port_get_region_spans(
    down: i32,
    across: i32,
    row: i32,
    col: i32,
    radius: usize,
    out: &mut [u64],
) -> u32
    ensures { Tells spans_stored (region_spans (offset_by down across) (world row col) radius) (before out) result (after out) }
{
    harness::port_get_region_spans(down, across, row, col, radius, out)
}

#[unsafe(no_mangle)]
pub extern "C" fn port_set_new(size: u32, out: &mut [u32]) -> u32
    ensures { Tells set_stored (empty_set size) (before out) result (after out) }
{
    harness::port_set_new(size, out)
}

#[unsafe(no_mangle)]
pub extern "C" fn port_set_all(size: u32, out: &mut [u32]) -> u32
    ensures { Tells set_stored (full_set size) (before out) result (after out) }
{
    harness::port_set_all(size, out)
}

#[unsafe(no_mangle)]
pub extern "C" fn port_set_insert(bits: u32, size: u32, colour: u32, out: &mut [u32]) -> u32
    ensures { Tells set_stored (inserted (set_from bits size) colour) (before out) result (after out) }
{
    harness::port_set_insert(bits, size, colour, out)
}

#[unsafe(no_mangle)]
pub extern "C" fn port_set_contains(bits: u32, size: u32, colour: u32, out: &mut [u32]) -> u32
    ensures { Tells truth_stored (contained (set_from bits size) colour) (before out) result (after out) }
{
    harness::port_set_contains(bits, size, colour, out)
}

#[unsafe(no_mangle)]
pub extern "C" fn port_set_intersection(
    bits: u32,
    size: u32,
    others: u32,
    most: u32,
    out: &mut [u32],
) -> u32
    ensures { Tells set_stored (intersected (set_from bits size) (set_from others most)) (before out) result (after out) }
{
    harness::port_set_intersection(bits, size, others, most, out)
}

#[unsafe(no_mangle)]
pub extern "C" fn port_set_is_empty(bits: u32, size: u32, out: &mut [u32]) -> u32
    ensures { Tells truth_stored (emptiness (set_from bits size)) (before out) result (after out) }
{
    harness::port_set_is_empty(bits, size, out)
}

#[unsafe(no_mangle)]
pub extern "C" fn port_set_count(bits: u32, size: u32, out: &mut [u64]) -> u32
    ensures { Tells value_stored (members_counted (set_from bits size)) (before out) result (after out) }
{
    harness::port_set_count(bits, size, out)
}

#[unsafe(no_mangle)]
pub extern "C" fn port_region_count(
    pieces: &[u32],
    rows: usize,
    cols: usize,
    tiles: &[u8],
    count: u32,
    row: usize,
    col: usize,
    out: &mut [u64],
) -> u32
    ensures { Tells value_stored (region_count flat pieces.now rows cols tiles.now count (cell_at row col)) (before out) result (after out) }
{
    harness::port_region_count(pieces, rows, cols, tiles, count, row, col, out)
}

#[unsafe(no_mangle)]
pub extern "C" fn port_fraction(
    counts: &[u32],
    rows: usize,
    cols: usize,
    tiles: usize,
    row: usize,
    col: usize,
    out: &mut [f64],
) -> u32
    ensures { Tells value_stored (fraction_at counts.now rows cols tiles (cell_at row col)) (before out) result (after out) }
{
    harness::port_fraction(counts, rows, cols, tiles, row, col, out)
}

#[unsafe(no_mangle)]
pub extern "C" fn port_raise_weights(
    weights: &mut [u32],
    rows: usize,
    cols: usize,
    row: i32,
    col: i32,
    down: i32,
    across: i32,
) -> u32
    ensures { Numbered (Raises flat rows cols (world row col) (offset_by down across) (before weights)) result (after weights) }
{
    harness::port_raise_weights(weights, rows, cols, row, col, down, across)
}

#[unsafe(no_mangle)]
pub extern "C" fn port_lower_weights(
    weights: &mut [u32],
    rows: usize,
    cols: usize,
    row: i32,
    col: i32,
    down: i32,
    across: i32,
) -> u32
    ensures { Numbered (Lowers flat rows cols (world row col) (offset_by down across) (before weights)) result (after weights) }
{
    harness::port_lower_weights(weights, rows, cols, row, col, down, across)
}

#[unsafe(no_mangle)]
pub extern "C" fn port_recount(
    counts: &mut [u32],
    pieces: &[u32],
    rows: usize,
    cols: usize,
    tiles: &[u8],
    count: u32,
    row: i32,
    col: i32,
    down: i32,
    across: i32,
) -> u32
    ensures { PortRecounts rows cols tiles.now count row col down across pieces.now (before counts) result (after counts) }
{
    harness::port_recount(
        counts, pieces, rows, cols, tiles, count, row, col, down, across,
    )
}
