// The rows of a plane of any kind of entry laid in a larger one, each in its part of a row of the larger.
#![tactic(auto)]

ghost use Rattle.std.specs.Prelude.{◌≡◌, length};
ghost use Rattle.rules.specs.Promises.{before, after};
ghost use Rattle.copy_checks.specs.Laid.{rows_laid, Sized};

use rules::Pads;

// One row's part becomes that row. By a loop: `copy_from_slice` is a call of the C library's memmove, which would be a name that the desk's
// archive needs from outside, and the dynamic linker's stack where it is bound at the first call.
fn lay_row<T: Copy>(part: &mut [T], row: &[T])
    requires { length part.old ≡ length row.now }
    ensures { after part ≡ row.now }
{
    for j in 0..part.len() {
        part[j] = row[j];
    }
}

pub fn lay_rows<T: Copy>(target: &mut [T], plane: &[T], rows: usize, cols: usize, pads: Pads)
    requires { Sized rows cols pads (length plane.now) (length target.old) }
    ensures { (none : T) → after target ≡ rows_laid none plane.now rows cols pads (before target) }
{
    let wide = pads.top + cols + pads.bottom;
    for i in 0..rows {
        let from = (pads.left + i) * wide + pads.top;
        let start = i * cols;
        lay_row(&mut target[from..from + cols], &plane[start..start + cols]);
    }
}
