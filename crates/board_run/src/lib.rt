// A forced run by the rule alone, its checks made: forced places are queued, taken, and laid where they are still forced, until none
// waits, the budget is spent or the queue has no room. The planes are read only round the places of the run.
#![tactic(auto)]

ghost use Rattle.std.specs.Prelude.{◌≡◌, true, not, ◌&&◌, List, [], ℕ, ◌+◌, ◌≤◌, ltb, length};
ghost use Rattle.rules.specs.Answers.{end_by};
ghost use Rattle.rules.specs.Bounds.{max_budget};
ghost use Rattle.rules.specs.Tests.{on_wall, on_board};
ghost use Rattle.rules.specs.Grid.{flat};
ghost use Rattle.rules.specs.Forced.{forced_round, with_positions};
ghost use Rattle.rules.specs.Board.{Board, entry_in, laid};
ghost use Rattle.rules.specs.ForcedRun.{Run, still_forced, stepped, begun};
ghost use Rattle.rules.specs.Promises.{board, board_before, board_after, panel};
ghost use Rattle.fit_windows.specs.Ready.{Ready};
ghost use Rattle.fit_forced.specs.Round.{Roundable};
ghost use Rattle.queue_ring.specs.Waiting.{Adds};
ghost use Rattle.board_run.specs.Running.{Going, Turning, Laying, Shows, Ends};

use board_moves::lay_at;
use board_near::near_spans;
use fit_forced::{forced_round, only_colour_at};
use places::cell_of;
use queue_ring::Ring;
use rules::{BoundingBox, ForcedPosition, Offset, RanOut, Refusal, RunEnd, World};

// How many entries were taken and laid, and whether an adding met ROOM.
#[derive(Clone, Copy)]
pub struct Progress {
    pub taken: usize,
    pub laid: usize,
    pub full: bool,
}

// Whether the cell of an entry is still bare and still lists only the entry's colour.
fn still_forced(
    pieces: &[u32],
    rows: usize,
    cols: usize,
    tiles: &[u8],
    count: u32,
    offset: Offset,
    entry: ForcedPosition,
) -> bool
    requires { Ready pieces.now rows cols tiles.now count × (on_board rows cols entry.coordinates offset ≡ true) }
    ensures { (weights counts : List ℕ)
        → result ≡ still_forced (panel rows cols tiles.now offset) count (board pieces.now weights counts) entry }
{
    let cell = cell_of(entry.coordinates, offset);
    let colour = only_colour_at(pieces, rows, cols, tiles, count, cell);
    colour != 0 && colour == entry.colour
}

// Lays an entry. Its place is on the board, so there are spans round it.
fn lay_entry(
    pieces: &mut [u32],
    weights: &mut [u32],
    counts: &mut [u32],
    rows: usize,
    cols: usize,
    tiles: &[u8],
    offset: Offset,
    entry: ForcedPosition,
)
    requires { Laying (panel rows cols tiles.now offset) (board pieces.old weights.old counts.old) entry }
    ensures { board_after pieces weights counts
        ≡ laid (flat rows cols) tiles.now (board_before pieces weights counts) (entry_in (panel rows cols tiles.now offset) entry.coordinates) entry.colour }
{
    let Ok(spans) = near_spans(rows, cols, entry.coordinates, offset) else {
        return;
    };
    let cell = cell_of(entry.coordinates, offset);
    lay_at(
        pieces,
        weights,
        counts,
        rows,
        cols,
        tiles,
        cell,
        spans,
        entry.colour,
    );
}

// Queues the forced neighbours of a place; ROOM where the queue has no room for them.
fn queue_round(
    pieces: &[u32],
    rows: usize,
    cols: usize,
    tiles: &[u8],
    count: u32,
    place: World,
    offset: Offset,
    bounds: Option<BoundingBox>,
    queue: &mut Ring<'_>,
) -> Result<(), Refusal>
    requires { Roundable pieces.now rows cols tiles.now count place }
    ensures { Adds (with_positions queue.old (forced_round flat pieces.now rows cols tiles.now count place offset bounds))
        queue.old result queue.new }
{
    let found = forced_round(pieces, rows, cols, tiles, count, place, offset, bounds);
    queue.add_positions(&found)
}

// The run before an entry is taken: the queue is empty, and the forced neighbours of the place are queued.
fn begin(
    pieces: &[u32],
    rows: usize,
    cols: usize,
    tiles: &[u8],
    count: u32,
    place: World,
    offset: Offset,
    bounds: Option<BoundingBox>,
    queue: &mut Ring<'_>,
) -> Progress
    requires { Roundable pieces.now rows cols tiles.now count place × (queue.old ≡ []) }
    ensures { (result.taken ≡ 0) × (result.laid ≡ 0) × ((b : Board) → b.pieces ≡ pieces.now
        → Shows (begun (panel rows cols tiles.now offset) count bounds b place) b queue.new result) }
{
    let full = queue_round(
        pieces, rows, cols, tiles, count, place, offset, bounds, queue,
    )
    .is_err();
    Progress {
        taken: 0,
        laid: 0,
        full,
    }
}

// Takes the entry that is next out: laid if it is still forced, and its forced neighbours queued; otherwise dropped.
fn turn(
    pieces: &mut [u32],
    weights: &mut [u32],
    counts: &mut [u32],
    rows: usize,
    cols: usize,
    tiles: &[u8],
    count: u32,
    offset: Offset,
    bounds: Option<BoundingBox>,
    queue: &mut Ring<'_>,
    state: Progress,
) -> Progress
    requires { Turning (panel rows cols tiles.now offset) count (board pieces.old weights.old counts.old) queue.old state }
    ensures { (result.taken ≡ state.taken + 1) × (result.laid ≤ state.laid + 1)
        × ((s : Run) → Shows s (board_before pieces weights counts) queue.old state
        → Shows (stepped (panel rows cols tiles.now offset) count bounds s) (board_after pieces weights counts) queue.new result) }
{
    let Some(entry) = queue.take_next() else {
        return state;
    };
    let taken = state.taken + 1;
    if !still_forced(pieces, rows, cols, tiles, count, offset, entry) {
        return Progress { taken, ..state };
    }
    lay_entry(pieces, weights, counts, rows, cols, tiles, offset, entry);
    let full = queue_round(
        pieces,
        rows,
        cols,
        tiles,
        count,
        entry.coordinates,
        offset,
        bounds,
        queue,
    )
    .is_err();
    Progress {
        taken,
        laid: state.laid + 1,
        full,
    }
}

// Whether an entry may be taken.
fn goes_on(state: Progress, queue: &Ring<'_>, budget: usize) -> bool
    ensures { result ≡ (not state.full && ltb 0 (length queue.now) && ltb state.taken budget) }
{
    !state.full && !queue.is_empty() && state.taken < budget
}

// How the run ended. Full is said before spent, and done wherever no entry waits.
fn ended(state: Progress, queue: &Ring<'_>) -> RunEnd
    ensures { result ≡ end_by state.full queue.now }
{
    if state.full {
        return RunEnd::Full;
    }
    if queue.is_empty() {
        return RunEnd::Done;
    }
    RunEnd::Spent
}

// Runs out the forced pieces from a place, in a queue of its own.
pub fn run_out(
    pieces: &mut [u32],
    weights: &mut [u32],
    counts: &mut [u32],
    rows: usize,
    cols: usize,
    tiles: &[u8],
    count: u32,
    place: World,
    offset: Offset,
    bounds: Option<BoundingBox>,
    budget: usize,
) -> RanOut
    requires { Going (panel rows cols tiles.now offset) count (board pieces.old weights.old counts.old) [] 0
        × (on_wall place ≡ true) × (budget ≤ max_budget) }
    ensures { Ends (panel rows cols tiles.now offset) count place bounds budget
        (board_before pieces weights counts) result (board_after pieces weights counts) }
{
    let mut queuerows = [0i32; rules::QUEUE_ROOM];
    let mut queuecols = [0i32; rules::QUEUE_ROOM];
    let mut queuecolours = [0u32; rules::QUEUE_ROOM];
    let mut queue = Ring::new(&mut queuerows, &mut queuecols, &mut queuecolours);
    let mut state = begin(
        pieces, rows, cols, tiles, count, place, offset, bounds, &mut queue,
    );
    // It ends on three conditions, by what each turn leaves; no range counts the turns.
    while goes_on(state, &queue, budget) {
        state = turn(
            pieces, weights, counts, rows, cols, tiles, count, offset, bounds, &mut queue, state,
        );
    }
    RanOut {
        end: ended(state, &queue),
        taken: state.taken,
        laid: state.laid,
    }
}
