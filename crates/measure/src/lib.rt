// Q-8: "each extreme in g as a 32-bit float", and its text, the exact decimal, written into a lent buffer.
#![tactic(auto)]

ghost use Rattle.std.specs.Prelude.{◌≡◌, ◌+◌, ◌*◌, ◌≤◌, ◌<◌, T, nat_abs, length};
ghost use Rattle.std.specs.Float.{binary32};
ghost use Rattle.std.specs.Float.Ieee.{in_signed};
ghost use Rattle.text.specs.Text.{decimal, Pushed, left_in, place_after};
ghost use Rattle.measure.specs.Measure.{in_g, times1024, whole1024ths, most_places, places, fraction_text, unsigned_text, signed_text, g_text, longest_g};

use benchlog::lacks_room;
use codes::Range;

const MOST_PLACES: usize = 10;

// What is left where no digit is to come.
const NOTHING: u32 = 0;

// A sign, three digits, the point and ten digits: no count has a longer text.
pub const LONGEST_G: usize = 5 + MOST_PLACES;

// A count in g. Of a reserved range, which is never stored, nothing is known, and the answer is 0.
pub fn in_g(count: i16, range: Range) -> f32
    ensures { result ≡ in_g count range }
{
    let counts = count as f32;
    match range {
        Range::G2 => counts * 0.0009765625,
        Range::G4 => counts * 0.001953125,
        Range::G8 => counts * 0.00390625,
        Range::G16 => counts * 0.0078125,
        Range::Reserved => 0.0,
    }
}

// How many 1/1024 g a float is, where that is a whole number.
fn in_1024ths(g: f32) -> i32
    requires { T (in_signed binary32 31 (times1024 g)) }
    ensures { result ≡ whole1024ths g }
{
    (g * 1024.0) as i32
}

// ---- pieces, for which there is room
// A number of three digits at most.
fn put_whole(out: &mut [u8], at: usize, n: u32) -> usize
    requires { (n < 1000) × (at + 3 ≤ length out.old) }
    ensures { Pushed out.old at (decimal n) out.new result }
{
    if n < 10 {
        out[at] = 48 + n as u8;
        return at + 1;
    }
    if n < 100 {
        out[at] = 48 + (n / 10) as u8;
        out[at + 1] = 48 + (n % 10) as u8;
        return at + 2;
    }
    out[at] = 48 + (n / 100) as u8;
    out[at + 1] = 48 + (n / 10 % 10) as u8;
    out[at + 2] = 48 + (n % 10) as u8;
    at + 3
}

// The digits behind the point: nothing is left of any rest after ten.
fn put_places(out: &mut [u8], at: usize, rest: u32) -> usize
    requires { (rest < 1024) × (at + most_places ≤ length out.old) }
    ensures { Pushed out.old at (places most_places rest) out.new result }
{
    let mut left = rest;
    for i in 0..MOST_PLACES {
        if left == NOTHING {
            return at + i;
        }
        out[at + i] = 48 + (left * 10 / 1024) as u8;
        left = left * 10 % 1024;
    }
    at + MOST_PLACES
}

fn put_fraction(out: &mut [u8], at: usize, rest: u32) -> usize
    requires { (rest < 1024) × (at + (1 + most_places) ≤ length out.old) }
    ensures { Pushed out.old at (fraction_text rest) out.new result }
{
    if rest == 0 {
        return at;
    }
    out[at] = b'.';
    put_places(out, at + 1, rest)
}

fn put_unsigned(out: &mut [u8], at: usize, n: u32) -> usize
    requires { (n < 1000 * 1024) × (at + (4 + most_places) ≤ length out.old) }
    ensures { Pushed out.old at (unsigned_text n) out.new result }
{
    let to = put_whole(&mut *out, at, n / 1024);
    put_fraction(out, to, n % 1024)
}

fn put_signed(out: &mut [u8], at: usize, n: i32) -> usize
    requires { (nat_abs n < 1000 * 1024) × (at + longest_g ≤ length out.old) }
    ensures { Pushed out.old at (signed_text n) out.new result }
{
    if n < 0 {
        out[at] = b'-';
        return put_unsigned(out, at + 1, (0 - n) as u32);
    }
    put_unsigned(out, at, n as u32)
}

// The text of a count in g, from the float, from a place on: the place behind it. Where there is not room for the longest, nothing is
// written and the place is given back.
pub fn put_g(out: &mut [u8], at: usize, count: i16, range: Range) -> usize
    ensures { (result ≡ place_after longest_g out.old at (g_text count range)) × (out.new ≡ left_in longest_g out.old at (g_text count range)) }
{
    if lacks_room(out.len(), at, LONGEST_G) {
        return at;
    }
    put_signed(out, at, in_1024ths(in_g(count, range)))
}
