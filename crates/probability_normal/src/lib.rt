// Normalising, document 01, "Probabilities": the probabilities of one place are taken from the plane that holds them all, and normalised.
// Every float step is one rounded operation, in the order in which the text takes them.
#![tactic(auto)]

ghost use Rattle.std.specs.Prelude.{◌≡◌, map, ◌+◌, ◌*◌, ◌<◌, length, get_or, Float};
ghost use Rattle.std.specs.Float.{nan};
ghost use Rattle.base.specs.Tables.{tab};
ghost use Rattle.rules.specs.Floats.{over};
ghost use Rattle.rules.specs.Promises.{before, after};
ghost use Rattle.rules.specs.Probabilities.{larger, largest_of, total_of, usable, normalised, probabilities_at};
ghost use Rattle.probability_normal.specs.Fits.{PlaceFits};

use rules::{Offset, World};

// Document 01 fixes float steps bit by bit. Written out, since f64::max tells another where one of the two is a NaN.
fn larger(a: f64, b: f64) -> f64
    ensures { result ≡ larger a b }
{
    if a < b { b } else { a }
}

// The largest, 0.0 at the least.
fn largest(ps: &[f64]) -> f64
    ensures { result ≡ largest_of ps.now }
{
    let mut most = 0.0;
    for p in ps {
        most = larger(most, *p);
    }
    most
}

// The sum of p / most, by colour upwards from 0.0.
fn total(ps: &[f64], most: f64) -> f64
    ensures { result ≡ total_of most ps.now }
{
    let mut sum = 0.0;
    for p in ps {
        sum += *p / most;
    }
    sum
}

// Each p becomes p / most / sum.
fn share_out(ps: &mut [f64], most: f64, sum: f64)
    ensures { after ps ≡ map (λ (p : Float). over (over p most) sum) (before ps) }
{
    for p in ps.iter_mut() {
        *p = *p / most / sum;
    }
}

pub fn fill(ps: &mut [f64], x: f64)
    ensures { after ps ≡ map (λ (_ : Float). x) (before ps) }
{
    ps.fill(x);
}

// Neither 0 nor infinite.
fn usable(most: f64) -> bool
    ensures { result ≡ usable most }
{
    0.0 < most && most < f64::from_bits(0x7ff0_0000_0000_0000)
}

// The probabilities of one place, normalised where they stand: one for each colour.
pub fn normalise(ps: &mut [f64], count: u32)
    requires { count ≡ length ps.old }
    ensures { after ps ≡ normalised (before ps) }
{
    let most = largest(ps);
    if !usable(most) {
        fill(ps, 1.0 / (count as f64));
        return;
    }
    let sum = total(ps, most);
    share_out(ps, most, sum);
}

// Colour t's probability at the cell `at`, for each entry t of out.
pub fn gather(plane: &[f64], cells: usize, at: usize, out: &mut [f64])
    requires { (at < cells) × (length plane.now ≡ length out.old * cells) }
    ensures { after out ≡ tab (length (before out)) (λ t. get_or plane.now (t * cells + at) nan) }
{
    for (t, p) in out.iter_mut().enumerate() {
        *p = plane[t * cells + at];
    }
}

// The probabilities of a place; one off the board counts as all zeros. The checks are made.
pub fn take_place(
    plane: &[f64],
    rows: usize,
    cols: usize,
    count: u32,
    place: World,
    offset: Offset,
    out: &mut [f64],
)
    requires { PlaceFits plane.now out.old rows cols count }
    ensures { after out ≡ probabilities_at plane.now rows cols count place offset }
{
    if !places::on_board(rows, cols, place, offset) {
        fill(out, 0.0);
        return;
    }
    let cell = places::cell_of(place, offset);
    gather(plane, rows * cols, cell.0 * cols + cell.1, out);
}
