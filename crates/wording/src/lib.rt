// What the answer prints, written into a lent buffer: a line for a stretch, a sample, a range, a mode, a refused write or the totals, and
// the last line. A line for which there may not be room is not begun.
#![tactic(auto)]

ghost use Rattle.std.specs.Prelude.{◌≡◌, ◌+◌, ◌≤◌, [], ◌∷◌, ◌++◌, length};
ghost use Rattle.benchlog.specs.Answers.{stop_number};
ghost use Rattle.text.specs.Text.{most_digits, decimal, hex, Pushed, left_in, place_after};
ghost use Rattle.wording.specs.Wording.{longest_wording, Spelt, column, range_word, mode_word, doubt_sign, range_column, why_word, counts_text, stretch_columns, stretch_line, moded_line, stopped_at, last_line, signed_column, sample_line, wrote_text, refused_line, because_text, from_text, range_line, frames_word, mode_line, totals_text, held_text, totals_line, ended_word, short_line, over_line, line_text};

use benchlog::{Refusal, lacks_room};
use codes::{CONTROL_AT, Mode, RANGE_AT, Range};
use counts::{Account, Counts, Doubt, Why};
use text::{put_in_hex, put_number, put_word};

// A line.
#[derive(Clone, Copy)]
pub enum Line {
    // what is known at the end of the stretch before, before its last record and behind it, and why it ended
    Stretch(Account, Account, Account, Option<Why>),
    // the same, with the mode
    Moded(Account, Account, Account, Option<Why>),
    // the last line: whether the version byte is past, how many records there are, and the refusal, where there is one
    Last(bool, u64, Option<Refusal>),
    // the range, and the mode, from the next record on
    Range(Account),
    Mode(Account),
    // a refused write: its record, its byte, its address and the refusal
    Refused(u64, u8, u8, u8),
    // the counts from one record to another, what "lost" is about, and that no readout came
    Totals(Account, Account),
    Lost,
    NoReadout,
    // the log stopped, by a refusal or none, after so many records, before the record that was asked for
    Short(Option<Refusal>, u64, u64),
    // how the log ended, as of the last line
    Over(bool, u64, Option<Refusal>),
}

// No line is longer.
pub const LONGEST_WORDING: usize = 320;

// The record that was refused.
fn stopped_at(begun: bool, records: u64) -> u64
    ensures { result ≡ stopped_at begun records }
{
    if begun { records.wrapping_add(1) } else { 0 }
}

// ---- pieces, for which there is room. `number` to `put_signed` are alike in sheetlines, which says why they are not shared.
fn number(out: &mut [u8], at: usize, n: u64) -> usize
    requires { at + most_digits ≤ length out.old }
    ensures { Spelt most_digits out.old at (decimal n) out.new result }
{
    put_number(out, at, n)
}

fn word(out: &mut [u8], at: usize, letters: &[u8]) -> usize
    requires { at + length letters.now ≤ length out.old }
    ensures { Spelt (length letters.now) out.old at letters.now out.new result }
{
    put_word(out, at, letters)
}

fn in_hex(out: &mut [u8], at: usize, byte: u8) -> usize
    requires { at + 2 ≤ length out.old }
    ensures { Spelt 2 out.old at (hex (byte ∷ [])) out.new result }
{
    put_in_hex(out, at, byte)
}

// A number, and words behind it.
fn phrase(out: &mut [u8], at: usize, n: u64, words: &[u8]) -> usize
    requires { at + (most_digits + length words.now) ≤ length out.old }
    ensures { Spelt (most_digits + length words.now) out.old at (decimal n ++ words.now) out.new result }
{
    let to = number(&mut *out, at, n);
    word(out, to, words)
}

// A number and a space.
fn put_column(out: &mut [u8], at: usize, n: u64) -> usize
    requires { at + 21 ≤ length out.old }
    ensures { Spelt 21 out.old at (column n) out.new result }
{
    phrase(out, at, n, b" ")
}

fn put_range_word(out: &mut [u8], at: usize, range: Range) -> usize
    requires { at + 3 ≤ length out.old }
    ensures { Spelt 3 out.old at (range_word range) out.new result }
{
    match range {
        Range::G2 => word(out, at, b"2g"),
        Range::G4 => word(out, at, b"4g"),
        Range::G8 => word(out, at, b"8g"),
        Range::G16 => word(out, at, b"16g"),
        Range::Reserved => word(out, at, b"?g"),
    }
}

fn put_mode_word(out: &mut [u8], at: usize, mode: Mode) -> usize
    requires { at + 6 ≤ length out.old }
    ensures { Spelt 6 out.old at (mode_word mode) out.new result }
{
    match mode {
        Mode::Bypass => word(out, at, b"BYPASS"),
        Mode::Fifo => word(out, at, b"FIFO"),
        Mode::Stream => word(out, at, b"STREAM"),
        Mode::Reserved => word(out, at, b"?"),
    }
}

fn put_frames_word(out: &mut [u8], at: usize, mode: Mode) -> usize
    requires { at + 11 ≤ length out.old }
    ensures { Spelt 11 out.old at (frames_word mode) out.new result }
{
    match mode {
        Mode::Bypass => word(out, at, b", 1 frame"),
        Mode::Fifo => word(out, at, b", 32 frames"),
        Mode::Stream => word(out, at, b", 32 frames"),
        Mode::Reserved => word(out, at, b", no frame"),
    }
}

fn put_doubt_sign(out: &mut [u8], at: usize, doubt: Option<Doubt>) -> usize
    requires { at + 1 ≤ length out.old }
    ensures { Spelt 1 out.old at (doubt_sign doubt) out.new result }
{
    match doubt {
        None => at,
        Some(_) => word(out, at, b"?"),
    }
}

// The range, and whether it is in doubt.
fn put_range_column(out: &mut [u8], at: usize, range: Range, doubt: Option<Doubt>) -> usize
    requires { at + 5 ≤ length out.old }
    ensures { Spelt 5 out.old at (range_column range doubt) out.new result }
{
    let to = put_range_word(&mut *out, at, range);
    let to = put_doubt_sign(&mut *out, to, doubt);
    word(out, to, b" ")
}

fn put_why(out: &mut [u8], at: usize, why: Option<Why>) -> usize
    requires { at + 7 ≤ length out.old }
    ensures { Spelt 7 out.old at (why_word why) out.new result }
{
    match why {
        None => word(out, at, b"rest"),
        Some(Why::Readout) => word(out, at, b"readout"),
        Some(Why::Range) => word(out, at, b"range"),
        Some(Why::Refused) => word(out, at, b"refused"),
        Some(Why::Reset) => word(out, at, b"reset"),
    }
}

// Six columns.
fn put_counts(out: &mut [u8], at: usize, counts: Counts, held: u64) -> usize
    requires { at + 126 ≤ length out.old }
    ensures { Spelt 126 out.old at (counts_text counts held) out.new result }
{
    let to = put_column(&mut *out, at, counts.accepted);
    let to = put_column(&mut *out, to, counts.taken);
    let to = put_column(&mut *out, to, counts.lost);
    let to = put_column(&mut *out, to, counts.cleared);
    let to = put_column(&mut *out, to, held);
    put_column(out, to, counts.refused)
}

// A signed number, and a space behind it.
fn put_signed(out: &mut [u8], at: usize, n: i16) -> usize
    requires { at + 22 ≤ length out.old }
    ensures { Spelt 22 out.old at (signed_column n) out.new result }
{
    let wide = n as i32;
    if wide < 0 {
        let to = word(&mut *out, at, b"-");
        return put_column(out, to, (0 - wide) as u64);
    }
    put_column(out, at, wide as u64)
}

// A refused write.
fn put_wrote(out: &mut [u8], at: usize, nth: u64, byte: u8, address: u8) -> usize
    requires { at + 51 ≤ length out.old }
    ensures { Spelt 51 out.old at (wrote_text nth byte address) out.new result }
{
    let to = phrase(&mut *out, at, nth, b" wrote ");
    let to = in_hex(&mut *out, to, byte);
    let to = word(&mut *out, to, b" to ");
    let to = in_hex(&mut *out, to, address);
    word(out, to, b" and was refused")
}

// Why there is doubt, where there is, and the line's end.
fn put_because(out: &mut [u8], at: usize, doubt: Option<Doubt>, address: u8) -> usize
    requires { at + 69 ≤ length out.old }
    ensures { Spelt 69 out.old at (because_text doubt address) out.new result }
{
    let Some(doubt) = doubt else {
        return word(out, at, b"\n");
    };
    let to = word(&mut *out, at, b", because record ");
    let to = put_wrote(&mut *out, to, doubt.number, doubt.byte, address);
    word(out, to, b"\n")
}

// From the record behind so many on.
fn put_from(out: &mut [u8], at: usize, nth: u64) -> usize
    requires { at + 34 ≤ length out.old }
    ensures { Spelt 34 out.old at (from_text nth) out.new result }
{
    let to = word(&mut *out, at, b"from record ");
    phrase(out, to, nth.wrapping_add(1), b": ")
}

fn put_totals_text(out: &mut [u8], at: usize, counts: Counts) -> usize
    requires { at + 116 ≤ length out.old }
    ensures { Spelt 116 out.old at (totals_text counts) out.new result }
{
    let to = phrase(&mut *out, at, counts.accepted, b" accepted, ");
    let to = phrase(&mut *out, to, counts.taken, b" taken, ");
    let to = phrase(&mut *out, to, counts.lost, b" lost, ");
    phrase(out, to, counts.cleared, b" cleared, ")
}

// The frames held before and behind, and the events refused.
fn put_held(out: &mut [u8], at: usize, before: u64, behind: u64, refused: u64) -> usize
    requires { at + 96 ≤ length out.old }
    ensures { Spelt 96 out.old at (held_text before behind refused) out.new result }
{
    let to = phrase(&mut *out, at, before, b" held before, ");
    let to = phrase(&mut *out, to, behind, b" held after, ");
    phrase(out, to, refused, b" refused\n")
}

fn put_ended(out: &mut [u8], at: usize, refusal: Option<Refusal>) -> usize
    requires { at + 40 ≤ length out.old }
    ensures { Spelt 40 out.old at (ended_word (stop_number refusal)) out.new result }
{
    let Some(refusal) = refusal else {
        return word(out, at, b"the log ends");
    };
    let to = word(&mut *out, at, b"the log was refused ");
    number(out, to, u8::from(refusal) as u64)
}

// Ten columns.
fn put_columns(
    out: &mut [u8],
    at: usize,
    from: Account,
    before: Account,
    behind: Account,
    why: Option<Why>,
) -> usize
    requires { at + 180 ≤ length out.old }
    ensures { Spelt 180 out.old at (stretch_columns from before behind why) out.new result }
{
    let to = put_column(&mut *out, at, from.number.wrapping_add(1));
    let to = put_column(&mut *out, to, behind.number);
    let to = put_range_column(&mut *out, to, before.range, before.doubts.range);
    let between = behind.counts.since(from.counts);
    let to = put_counts(&mut *out, to, between, behind.held);
    put_why(out, to, why)
}

// ---- lines, for which there is room
fn write_stretch(
    out: &mut [u8],
    at: usize,
    from: Account,
    before: Account,
    behind: Account,
    why: Option<Why>,
) -> usize
    requires { at + longest_wording ≤ length out.old }
    ensures { Pushed out.old at (stretch_line from before behind why) out.new result }
{
    let to = put_columns(&mut *out, at, from, before, behind, why);
    word(out, to, b"\n")
}

fn write_moded(
    out: &mut [u8],
    at: usize,
    from: Account,
    before: Account,
    behind: Account,
    why: Option<Why>,
) -> usize
    requires { at + longest_wording ≤ length out.old }
    ensures { Pushed out.old at (moded_line from before behind why) out.new result }
{
    let to = put_columns(&mut *out, at, from, before, behind, why);
    let to = word(&mut *out, to, b" ");
    let to = put_mode_word(&mut *out, to, before.mode);
    let to = put_doubt_sign(&mut *out, to, before.doubts.mode);
    word(out, to, b"\n")
}

fn write_last(
    out: &mut [u8],
    at: usize,
    begun: bool,
    records: u64,
    refusal: Option<Refusal>,
) -> usize
    requires { at + longest_wording ≤ length out.old }
    ensures { Pushed out.old at (last_line begun records (stop_number refusal)) out.new result }
{
    let Some(refusal) = refusal else {
        let to = word(&mut *out, at, b"end ");
        return phrase(out, to, records, b"\n");
    };
    let to = word(&mut *out, at, b"stop ");
    let to = put_column(&mut *out, to, stopped_at(begun, records));
    phrase(out, to, u8::from(refusal) as u64, b"\n")
}

fn write_sample(
    out: &mut [u8],
    at: usize,
    nth: u64,
    x: i16,
    y: i16,
    z: i16,
    lost: u64,
    back: u64,
) -> usize
    requires { at + longest_wording ≤ length out.old }
    ensures { Pushed out.old at (sample_line nth x y z lost back) out.new result }
{
    let to = word(&mut *out, at, b"sample ");
    let to = put_column(&mut *out, to, nth);
    let to = put_signed(&mut *out, to, x);
    let to = put_signed(&mut *out, to, y);
    let to = put_signed(&mut *out, to, z);
    let to = put_column(&mut *out, to, lost);
    phrase(out, to, back, b"\n")
}

fn write_range(out: &mut [u8], at: usize, account: Account) -> usize
    requires { at + longest_wording ≤ length out.old }
    ensures { Pushed out.old at (range_line account) out.new result }
{
    let doubt = account.doubts.range;
    let to = put_from(&mut *out, at, account.number);
    let to = put_range_word(&mut *out, to, account.range);
    let to = put_doubt_sign(&mut *out, to, doubt);
    put_because(out, to, doubt, RANGE_AT as u8)
}

fn write_mode(out: &mut [u8], at: usize, account: Account) -> usize
    requires { at + longest_wording ≤ length out.old }
    ensures { Pushed out.old at (mode_line account) out.new result }
{
    let doubt = account.doubts.mode;
    let to = put_from(&mut *out, at, account.number);
    let to = put_mode_word(&mut *out, to, account.mode);
    let to = put_doubt_sign(&mut *out, to, doubt);
    let to = put_frames_word(&mut *out, to, account.mode);
    put_because(out, to, doubt, CONTROL_AT as u8)
}

fn write_refused(out: &mut [u8], at: usize, nth: u64, byte: u8, address: u8, refusal: u8) -> usize
    requires { at + longest_wording ≤ length out.old }
    ensures { Pushed out.old at (refused_line nth byte address refusal) out.new result }
{
    let to = word(&mut *out, at, b"record ");
    let to = put_wrote(&mut *out, to, nth, byte, address);
    let to = word(&mut *out, to, b" ");
    phrase(out, to, refusal as u64, b"\n")
}

fn write_totals(out: &mut [u8], at: usize, from: Account, upto: Account) -> usize
    requires { at + longest_wording ≤ length out.old }
    ensures { Pushed out.old at (totals_line from upto) out.new result }
{
    let to = word(&mut *out, at, b"records ");
    let to = phrase(&mut *out, to, from.number.wrapping_add(1), b" to ");
    let to = phrase(&mut *out, to, upto.number, b": ");
    let between = upto.counts.since(from.counts);
    let to = put_totals_text(&mut *out, to, between);
    put_held(out, to, from.held, upto.held, between.refused)
}

fn write_short(
    out: &mut [u8],
    at: usize,
    refusal: Option<Refusal>,
    records: u64,
    asked: u64,
) -> usize
    requires { at + longest_wording ≤ length out.old }
    ensures { Pushed out.old at (short_line (stop_number refusal) records asked) out.new result }
{
    let to = put_ended(&mut *out, at, refusal);
    let to = word(&mut *out, to, b" after record ");
    let to = phrase(&mut *out, to, records, b"; what came up to record ");
    phrase(out, to, asked, b" is not known\n")
}

fn write_over(
    out: &mut [u8],
    at: usize,
    begun: bool,
    records: u64,
    refusal: Option<Refusal>,
) -> usize
    requires { at + longest_wording ≤ length out.old }
    ensures { Pushed out.old at (over_line begun records (stop_number refusal)) out.new result }
{
    let Some(refusal) = refusal else {
        let to = word(&mut *out, at, b"the log ends after record ");
        return phrase(out, to, records, b"\n");
    };
    let to = word(&mut *out, at, b"the log was refused ");
    let to = phrase(&mut *out, to, u8::from(refusal) as u64, b" at record ");
    phrase(out, to, stopped_at(begun, records), b"\n")
}

fn write_line(out: &mut [u8], at: usize, line: Line) -> usize
    requires { at + longest_wording ≤ length out.old }
    ensures { Pushed out.old at (line_text line) out.new result }
{
    match line {
        Line::Stretch(from, before, behind, why) => write_stretch(
            out, at, from, before, behind, why,
        ),
        Line::Moded(from, before, behind, why) => write_moded(out, at, from, before, behind, why),
        Line::Last(begun, records, refusal) => write_last(out, at, begun, records, refusal),
        Line::Range(account) => write_range(out, at, account),
        Line::Mode(account) => write_mode(out, at, account),
        Line::Refused(nth, byte, address, refusal) => write_refused(
            out, at, nth, byte, address, refusal,
        ),
        Line::Totals(from, upto) => write_totals(out, at, from, upto),
        Line::Lost => word(
            out,
            at,
            b"lost: no readout of the FIFO (a read at 3F) can give them; a read of 02 to 07 is no readout\n",
        ),
        Line::NoReadout => word(out, at, b"in these records no readout came\n"),
        Line::Short(refusal, records, asked) => write_short(out, at, refusal, records, asked),
        Line::Over(begun, records, refusal) => write_over(out, at, begun, records, refusal),
    }
}

// ---- lines from a place on: the place behind it. Where there may not be room nothing is written and the place is given back
// A line.
pub fn put_line(out: &mut [u8], at: usize, line: Line) -> usize
    ensures { (result ≡ place_after longest_wording out.old at (line_text line)) × (out.new ≡ left_in longest_wording out.old at (line_text line)) }
{
    if lacks_room(out.len(), at, LONGEST_WORDING) {
        return at;
    }
    write_line(out, at, line)
}

// An accepted sample, how many its arrival lost, and which.
pub fn put_sample(
    out: &mut [u8],
    at: usize,
    nth: u64,
    x: i16,
    y: i16,
    z: i16,
    lost: u64,
    back: u64,
) -> usize
    ensures { (result ≡ place_after longest_wording out.old at (sample_line nth x y z lost back)) × (out.new ≡ left_in longest_wording out.old at (sample_line nth x y z lost back)) }
{
    if lacks_room(out.len(), at, LONGEST_WORDING) {
        return at;
    }
    write_sample(out, at, nth, x, y, z, lost, back)
}
