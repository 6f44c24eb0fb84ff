// Numbers and planes as text, written into a lent buffer. Each call takes the entry at which it starts and answers the entry after what it
// wrote; what would pass the buffer's end is dropped, and the answer stays at the end. The digits are made here, and not by std's formatting:
// the promises say which bytes stand in the buffer, which its contracts do not.
#![tactic(auto)]

ghost use Rattle.std.specs.Prelude.{◌≡◌, [], ◌∷◌, ◌+◌, ◌-◌, ◌%◌, ◌<◌, length};
ghost use Rattle.base.specs.Lent.{before, after};
ghost use Rattle.listing_lines.specs.Lines.{digits, decimal, number_line, parting, cell_text, plane_text};
ghost use Rattle.listing_lines.specs.Pages.{Prints};

fn put(out: &mut [u8], at: usize, b: u8) -> usize
    ensures { Prints (b ∷ []) at (before out) result (after out) }
{
    if at < out.len() {
        out[at] = b;
        return at + 1;
    }
    at
}

fn digit(n: u32) -> u8
    ensures { result ≡ 48 + n % 10 }
{
    48 + (n % 10) as u8
}

// The last k digits of n at most, the front ones first.
fn put_digits(out: &mut [u8], at: usize, k: u32, n: u32) -> usize
    ensures { Prints (digits k n) at (before out) result (after out) }
{
    if k == 0 {
        return at;
    }
    if n < 10 {
        return put(out, at, digit(n));
    }
    let next = put_digits(out, at, k - 1, n / 10);
    put(out, next, digit(n))
}

pub fn put_number(out: &mut [u8], at: usize, n: u32) -> usize
    ensures { Prints (decimal n) at (before out) result (after out) }
{
    put_digits(out, at, 10, n)
}

// A number on a line of its own.
pub fn put_number_line(out: &mut [u8], at: usize, n: u32) -> usize
    ensures { Prints (number_line n) at (before out) result (after out) }
{
    let next = put_number(out, at, n);
    put(out, next, b'\n')
}

// A text as it stands: a heading, for one.
pub fn put_text(out: &mut [u8], at: usize, text: &[u8]) -> usize
    ensures { Prints text.now at (before out) result (after out) }
{
    let mut p = at;
    for &b in text {
        p = put(out, p, b);
    }
    p
}

// No columns at all make one row without an end.
fn gap_after(cols: usize, k: usize) -> u8
    ensures { result ≡ parting cols k }
{
    if cols != 0 && k % cols + 1 == cols {
        b'\n'
    } else {
        b' '
    }
}

fn above(least: u32, n: u32) -> u32
    ensures { result ≡ n - least }
{
    n.saturating_sub(least)
}

// A cell of a plane, and what stands after it.
fn put_cell(out: &mut [u8], at: usize, least: u32, plane: &[u32], cols: usize, k: usize) -> usize
    requires { k < length plane.now }
    ensures { Prints (cell_text least plane.now cols k) at (before out) result (after out) }
{
    let next = put_number(out, at, above(least, plane[k]));
    put(out, next, gap_after(cols, k))
}

// A plane, row by row.
pub fn put_plane(out: &mut [u8], at: usize, least: u32, plane: &[u32], cols: usize) -> usize
    ensures { Prints (plane_text least plane.now cols) at (before out) result (after out) }
{
    let mut p = at;
    for k in 0..plane.len() {
        p = put_cell(out, p, least, plane, cols, k);
    }
    p
}
