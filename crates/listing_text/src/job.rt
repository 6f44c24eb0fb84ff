// A job from its set-up on: the sample as bytes, its tiles, a fresh board, the steps.
ghost use Rattle.std.specs.Prelude.{◌≡◌, true, ◌+◌, ◌*◌, ◌≤◌, min, length};
ghost use Rattle.rules.specs.Tests.{whole_tiles};
ghost use Rattle.rules.specs.Promises.{before, after, board};
ghost use Rattle.listing_job.specs.Form.{max_board, sides_up_to};
ghost use Rattle.listing_lines.specs.Pages.{Prints};
ghost use Rattle.listing_end.specs.Ending.{panel_with};
ghost use Rattle.listing_text.specs.Printed.{fresh_run, job_text};
ghost use Rattle.listing_steps.specs.Walks.{Walks, steps_from};
ghost use Rattle.listing_text.specs.Runs.{Planes, Formed, clipped};

use listing_end::{put_end, put_refused};
use listing_job::Setup;
use listing_steps::run_steps;

// A sample of 16 by 16 has 256 cells, and its windows start at 14 by 14 of them; eight forms of each are nine bytes a tile.
const SAMPLE_CELLS: usize = 256;

const STORE: usize = 14_112;

fn clip(n: u32) -> u8
    ensures { result ≡ min 255 n }
{
    n.min(255) as u8
}

// The sample's cells, which follow the first five numbers.
fn copy_cells(sample: &mut [u8], numbers: &[u32])
    requires { 5 + length sample.old ≤ length numbers.now }
    ensures { after sample ≡ clipped numbers.now (length (before sample)) }
{
    for (k, cell) in sample.iter_mut().enumerate() {
        *cell = clip(numbers[5 + k]);
    }
}

// A fresh board on the lent planes, then the steps, then the planes and the scan.
fn run(
    pieces: &mut [u32],
    weights: &mut [u32],
    counts: &mut [u32],
    out: &mut [u8],
    tiles: &[u8],
    setup: Setup,
    numbers: &[u32],
    from: usize,
) -> usize
    requires { (Planes (panel_with setup tiles.now) (board pieces.old weights.old counts.old)) × (Walks numbers.now from) }
    ensures { Prints (fresh_run setup tiles.now (steps_from numbers.now from)) 0 (before out) result (after out) }
{
    // Accepted: the planes and the tiles are such as it asks.
    let _ = board_fresh::fresh(
        pieces,
        weights,
        counts,
        setup.board.rows,
        setup.board.cols,
        tiles.len() / rules::TILE_CELLS,
    );
    let next = run_steps(pieces, weights, counts, out, 0, tiles, setup, numbers, from);
    put_end(out, next, pieces, weights, counts, tiles, setup)
}

// The planes, 1,024 equal entries each, of which the board takes as many as it has cells.
fn run_on_planes(out: &mut [u8], tiles: &[u8], setup: Setup, numbers: &[u32], from: usize) -> usize
    requires { (whole_tiles tiles.now ≡ true) × (sides_up_to max_board setup.board.rows setup.board.cols ≡ true) × (Walks numbers.now from) }
    ensures { Prints (fresh_run setup tiles.now (steps_from numbers.now from)) 0 (before out) result (after out) }
{
    let cells = setup.board.rows * setup.board.cols;
    let mut pieces = [1u32; 1024];
    let mut weights = [1u32; 1024];
    let mut counts = [0u32; 1024];
    run(
        &mut pieces[..cells],
        &mut weights[..cells],
        &mut counts[..cells],
        out,
        tiles,
        setup,
        numbers,
        from,
    )
}

// A job whose numbers are of the form; the sample is a store for its cells as bytes.
fn list_sample(out: &mut [u8], sample: &mut [u8], numbers: &[u32], setup: Setup) -> usize
    requires { (Formed numbers.now setup) × (length sample.old ≡ setup.sample.rows * setup.sample.cols) }
    ensures { Prints (job_text numbers.now setup) 0 (before out) result (after out) }
{
    copy_cells(sample, numbers);
    let mut store = [0u8; STORE];
    let extracted = tiles::extract_tiles(
        sample,
        setup.sample.rows,
        setup.sample.cols,
        setup.count,
        setup.rotations,
        setup.reflections,
        &mut store,
    );
    let from = setup.sample.rows * setup.sample.cols + 7;
    match extracted {
        Ok(n) => run_on_planes(out, &store[..n * rules::TILE_CELLS], setup, numbers, from),
        Err(refusal) => put_refused(out, 0, u8::from(refusal)),
    }
}

pub fn list_job(out: &mut [u8], numbers: &[u32], setup: Setup) -> usize
    requires { Formed numbers.now setup }
    ensures { Prints (job_text numbers.now setup) 0 (before out) result (after out) }
{
    let cells = setup.sample.rows * setup.sample.cols;
    let mut sample = [0u8; SAMPLE_CELLS];
    list_sample(out, &mut sample[..cells], numbers, setup)
}
