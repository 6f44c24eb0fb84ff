// Sets of colours by their bits, for calls that have made the checks: colour t is bit t-1; 0 is no colour and in no set.
// What they promise they promise for any number n of bits that holds the set; 32 stands in these few lines and in no law.
#![tactic(auto)]

ghost use Rattle.std.specs.Prelude.{◌≡◌, true, ◌&&◌, ◌||◌, ℕ, ◌/◌, ◌^◌, ◌<◌, ◌≤◌, eqb, length};
ghost use Rattle.rules.specs.Bounds.{max_colours};
ghost use Rattle.rules.specs.Sets.{has, bits_of, colours_of, colour_list};
ghost use Rattle.rules.specs.Forced.{only};

use rules::ColourList;

// The bit of colour t, and 0 for 0.
fn colour_bit(t: u32) -> u32
    requires { t ≤ max_colours }
    ensures { result ≡ 2 ^ t / 2 }
{
    (1u32 << t) >> 1
}

// The set with colour t too; with 0 it stays as it is.
pub fn with_colour(bits: u32, t: u32) -> u32
    requires { t ≤ max_colours }
    ensures { (n : ℕ) → bits < 2 ^ n → t ≤ n → result ≡ bits_of n (λ u. has bits u || eqb u t) }
{
    bits | colour_bit(t)
}

// All colours 1 to size.
pub fn all_colours(size: u32) -> u32
    requires { size ≤ max_colours }
    ensures { result ≡ bits_of size (λ t. true) }
{
    (1u32 << size) - 1
}

// The colours in both.
pub fn common_colours(bits: u32, others: u32) -> u32
    ensures { (n : ℕ) → bits < 2 ^ n → result ≡ bits_of n (λ t. has bits t && has others t) }
{
    bits & others
}

pub fn has_colour(bits: u32, t: u32) -> bool
    requires { t ≤ max_colours }
    ensures { result ≡ has bits t }
{
    t != 0 && (bits >> (t - 1)) % 2 == 1
}

pub fn no_colour(bits: u32) -> bool
    ensures { (n : ℕ) → bits < 2 ^ n → result ≡ eqb (length (colours_of n (has bits))) 0 }
{
    bits == 0
}

pub fn colours_in(bits: u32) -> u32
    ensures { (n : ℕ) → bits < 2 ^ n → result ≡ length (colours_of n (has bits)) }
{
    bits.count_ones()
}

// The one colour of the set; 0 where it has none or more than one.
pub fn only_colour(bits: u32) -> u32
    ensures { (n : ℕ) → bits < 2 ^ n → result ≡ only (colours_of n (has bits)) }
{
    if bits.count_ones() != 1 {
        return 0;
    }
    bits.trailing_zeros() + 1
}

// The members ascending. An entry is written also for a colour that is not in: it gets 0, which it holds already, so no branch is needed.
pub fn members(bits: u32, size: u32) -> ColourList
    requires { size ≤ max_colours }
    ensures { result ≡ colour_list (colours_of size (has bits)) }
{
    let mut colours = [0u8; rules::MAX_COLOURS as usize];
    let mut len: usize = 0;
    for k in 0..size {
        let here = (bits >> k) % 2;
        colours[len] = (here * (k + 1)) as u8;
        len += here as usize;
    }
    ColourList { colours, len }
}
