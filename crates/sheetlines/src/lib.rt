// Q-8: the sheet of a month as text, written into a lent buffer: nineteen lines, for all of which there is room or none is begun.
#![tactic(auto)]

ghost use Rattle.std.specs.Prelude.{◌≡◌, ◌++◌, ◌+◌, ◌*◌, ◌≤◌, length};
ghost use Rattle.text.specs.Text.{most_digits, decimal, left_in, place_after};
ghost use Rattle.wording.specs.Wording.{Spelt, column, signed_column};
ghost use Rattle.measure.specs.Measure.{g_text};
ghost use Rattle.sheetlines.specs.Lines.{count_line, counts_text, in_g_text, numbers_text, extremes_text, tally_line, axes_text, ranges_text, logs_line, month_text, most_in_g, longest_sheet};

use benchlog::lacks_room;
use codes::Range;
use measure::put_g;
use sheets::{ByAxis, ByRange, Extremes, Month, Sheet, Tally};
use text::{put_number, put_word};

// No month has a longer text.
pub const LONGEST_SHEET: usize = 1867;

// ---- pieces, for which there is room. `number` to `put_signed` are alike in wording: they ask for room, as no public function does, and shared they
// would look for it again at each piece.
fn number(out: &mut [u8], at: usize, n: u64) -> usize
    requires { at + most_digits ≤ length out.old }
    ensures { Spelt most_digits out.old at (decimal n) out.new result }
{
    put_number(out, at, n)
}

fn word(out: &mut [u8], at: usize, letters: &[u8]) -> usize
    requires { at + length letters.now ≤ length out.old }
    ensures { Spelt (length letters.now) out.old at letters.now out.new result }
{
    put_word(out, at, letters)
}

// A count in g.
fn in_g(out: &mut [u8], at: usize, count: i16, range: Range) -> usize
    requires { at + most_in_g ≤ length out.old }
    ensures { Spelt most_in_g out.old at (g_text count range) out.new result }
{
    put_g(out, at, count, range)
}

// A number, and words behind it.
fn phrase(out: &mut [u8], at: usize, n: u64, words: &[u8]) -> usize
    requires { at + (most_digits + length words.now) ≤ length out.old }
    ensures { Spelt (most_digits + length words.now) out.old at (decimal n ++ words.now) out.new result }
{
    let to = number(&mut *out, at, n);
    word(out, to, words)
}

// A number and a space.
fn put_column(out: &mut [u8], at: usize, n: u64) -> usize
    requires { at + 21 ≤ length out.old }
    ensures { Spelt 21 out.old at (column n) out.new result }
{
    phrase(out, at, n, b" ")
}

// A signed number and a space.
fn put_signed(out: &mut [u8], at: usize, n: i64) -> usize
    requires { at + 22 ≤ length out.old }
    ensures { Spelt 22 out.old at (signed_column n) out.new result }
{
    if n < 0 {
        let to = word(&mut *out, at, b"-");
        return put_column(out, to, n.unsigned_abs());
    }
    put_column(out, at, n.unsigned_abs())
}

// ---- lines, for which there is room
fn put_count(out: &mut [u8], at: usize, name: &[u8], n: u64) -> usize
    requires { at + (length name.now + 21) ≤ length out.old }
    ensures { Spelt (length name.now + 21) out.old at (count_line name.now n) out.new result }
{
    let to = word(&mut *out, at, name);
    phrase(out, to, n, b"\n")
}

// Six lines.
fn put_counts(out: &mut [u8], at: usize, sheet: Sheet) -> usize
    requires { at + 165 ≤ length out.old }
    ensures { Spelt 165 out.old at (counts_text sheet) out.new result }
{
    let to = put_count(&mut *out, at, b"accepted ", sheet.accepted);
    let to = put_count(&mut *out, to, b"taken ", sheet.taken);
    let to = put_count(&mut *out, to, b"held ", sheet.held);
    let to = put_count(&mut *out, to, b"lost ", sheet.lost);
    let to = put_count(&mut *out, to, b"cleared ", sheet.cleared);
    put_count(out, to, b"clock ", sheet.clock)
}

// Both extremes in g, and the line's end.
fn put_in_g(out: &mut [u8], at: usize, range: Range, smallest: i16, largest: i16) -> usize
    requires { at + 66 ≤ length out.old }
    ensures { Spelt 66 out.old at (in_g_text range smallest largest) out.new result }
{
    let to = in_g(&mut *out, at, smallest, range);
    let to = word(&mut *out, to, b" ");
    let to = in_g(&mut *out, to, largest, range);
    word(out, to, b"\n")
}

// The extremes and the sum in counts, the extremes in g, and the line's end.
fn put_numbers(
    out: &mut [u8],
    at: usize,
    range: Range,
    smallest: i16,
    largest: i16,
    sum: i64,
) -> usize
    requires { at + 132 ≤ length out.old }
    ensures { Spelt 132 out.old at (numbers_text range smallest largest sum) out.new result }
{
    let to = put_signed(&mut *out, at, smallest as i64);
    let to = put_signed(&mut *out, to, largest as i64);
    let to = put_signed(&mut *out, to, sum);
    put_in_g(out, to, range, smallest, largest)
}

fn put_extremes(
    out: &mut [u8],
    at: usize,
    range: Range,
    extremes: Option<Extremes>,
    sum: i64,
) -> usize
    requires { at + 132 ≤ length out.old }
    ensures { Spelt 132 out.old at (extremes_text range extremes sum) out.new result }
{
    match extremes {
        None => word(out, at, b"none\n"),
        Some(e) => put_numbers(out, at, range, e.smallest, e.largest, sum),
    }
}

// The line of one axis in one range.
fn put_tally(
    out: &mut [u8],
    at: usize,
    name: &[u8],
    axis: &[u8],
    range: Range,
    tally: Tally,
) -> usize
    requires { at + (length name.now + (length axis.now + 132)) ≤ length out.old }
    ensures { Spelt (length name.now + (length axis.now + 132)) out.old at (tally_line name.now axis.now range tally) out.new result }
{
    let extremes = tally.extremes;
    let to = word(&mut *out, at, name);
    let to = word(&mut *out, to, axis);
    put_extremes(out, to, range, extremes, tally.sum)
}

// Three lines.
fn put_axes(out: &mut [u8], at: usize, name: &[u8], range: Range, axes: ByAxis) -> usize
    requires { at + 3 * (length name.now + 135) ≤ length out.old }
    ensures { Spelt (3 * (length name.now + 135)) out.old at (axes_text name.now range axes) out.new result }
{
    let to = put_tally(&mut *out, at, name, b" x ", range, axes.x);
    let to = put_tally(&mut *out, to, name, b" y ", range, axes.y);
    put_tally(out, to, name, b" z ", range, axes.z)
}

// Twelve lines.
fn put_ranges(out: &mut [u8], at: usize, ranges: ByRange) -> usize
    requires { at + 1647 ≤ length out.old }
    ensures { Spelt 1647 out.old at (ranges_text ranges) out.new result }
{
    let to = put_axes(&mut *out, at, b"2g", Range::G2, ranges.g2);
    let to = put_axes(&mut *out, to, b"4g", Range::G4, ranges.g4);
    let to = put_axes(&mut *out, to, b"8g", Range::G8, ranges.g8);
    put_axes(out, to, b"16g", Range::G16, ranges.g16)
}

// The last line.
fn put_logs(out: &mut [u8], at: usize, logs: u64, refused: u64) -> usize
    requires { at + 55 ≤ length out.old }
    ensures { Spelt 55 out.old at (logs_line logs refused) out.new result }
{
    let to = word(&mut *out, at, b"logs ");
    let to = phrase(&mut *out, to, logs, b" refused ");
    phrase(out, to, refused, b"\n")
}

fn write_month(out: &mut [u8], at: usize, month: Month) -> usize
    requires { at + longest_sheet ≤ length out.old }
    ensures { Spelt longest_sheet out.old at (month_text month) out.new result }
{
    let sheet = month.sheet;
    let to = put_counts(&mut *out, at, sheet);
    let to = put_ranges(&mut *out, to, sheet.ranges);
    put_logs(out, to, month.logs, month.refused)
}

// The text of a month from a place on: the place behind it. Where there is not room for the longest, nothing is written and the place is
// given back.
pub fn put_month(out: &mut [u8], at: usize, month: Month) -> usize
    ensures { (result ≡ place_after longest_sheet out.old at (month_text month)) × (out.new ≡ left_in longest_sheet out.old at (month_text month)) }
{
    if lacks_room(out.len(), at, LONGEST_SHEET) {
        return at;
    }
    write_month(out, at, month)
}
