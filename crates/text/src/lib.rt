// What the programs print, written into a lent buffer: numbers and words, and the replay's lines, one for a record, with or without the
// pins behind it, and the last.
#![tactic(auto)]

ghost use Rattle.std.specs.Prelude.{◌≡◌, [], ◌∷◌, ◌+◌, ◌*◌, ◌≤◌, ◌<◌, length};
ghost use Rattle.benchlog.specs.Writer.{lacks_room};
ghost use Rattle.text.specs.Text.{most_digits, hex_digit, hex, behind_space, decimal, front, line, longest_line, letter, letters, letters_length, line_with_pins, longest_with_pins, pins_line, pins_length, Pushed, left_in, place_after};

use benchlog::lacks_room;
use interrupts::{Level, Pins};

const SPACE: u8 = 32;

const NEWLINE: u8 = 10;

// A number of 64 bits has 20 digits at most.
const MOST_DIGITS: usize = 20;

// A line without bytes: two numbers, two spaces and the line's end.
pub const LONGEST_LINE: usize = 2 * MOST_DIGITS + 3;

// The letters of both pins, each behind a space, and the line's end.
const LETTERS_LENGTH: usize = 5;

// A line without bytes, with the pins behind it.
const LONGEST_WITH_PINS: usize = LONGEST_LINE + LETTERS_LENGTH - 1;

// The bytes of the last line.
pub const PINS_LENGTH: usize = 9;

// Whether n bytes in hex and so much beside them, from a place on, would pass the end of so much room: a number of its own, since the sum
// may be more than a usize holds.
fn lacks_hex_room(room: usize, at: usize, beside: usize, n: usize) -> bool
    ensures { result ≡ lacks_room room at (beside + 2 * n) }
{
    lacks_room(room, at, beside) || (room - at - beside) / 2 < n
}

// How many decimal digits a number has.
fn digits_in(n: u64) -> usize
    ensures { result ≡ length (decimal n) }
{
    if n == 0 { 1 } else { n.ilog10() as usize + 1 }
}

// A number's digits, of which there are count, from at on, the last first. By hand: std's `{n}` writes the same digits, but into a text of its
// own, which would be copied, and the replay writes one at each record.
fn spell(out: &mut [u8], at: usize, count: usize, n: u64)
    requires { (count ≡ length (decimal n)) × (at + count ≤ length out.old) }
    ensures { Pushed out.old at (decimal n) out.new (at + count) }
{
    let mut rest = n;
    for i in (0..count).rev() {
        out[at + i] = 48 + (rest % 10) as u8;
        rest /= 10;
    }
}

// A number in decimal.
fn put_decimal(out: &mut [u8], at: usize, n: u64) -> usize
    requires { at + most_digits ≤ length out.old }
    ensures { Pushed out.old at (decimal n) out.new result }
{
    let count = digits_in(n);
    spell(out, at, count, n);
    at + count
}

fn put_byte(out: &mut [u8], at: usize, byte: u8) -> usize
    requires { at < length out.old }
    ensures { Pushed out.old at (byte ∷ []) out.new result }
{
    out[at] = byte;
    at + 1
}

fn hex_digit(d: u8) -> u8
    requires { d < 16 }
    ensures { result ≡ hex_digit d }
{
    if d < 10 { 48 + d } else { 55 + d }
}

// A byte as two digits.
fn put_hex_byte(out: &mut [u8], at: usize, byte: u8) -> usize
    requires { at + 2 ≤ length out.old }
    ensures { Pushed out.old at (hex (byte ∷ [])) out.new result }
{
    out[at] = hex_digit(byte / 16);
    out[at + 1] = hex_digit(byte % 16);
    at + 2
}

// Bytes in capital hex.
fn put_hex(out: &mut [u8], at: usize, bytes: &[u8]) -> usize
    requires { at + 2 * length bytes.now ≤ length out.old }
    ensures { Pushed out.old at (hex bytes.now) out.new result }
{
    let mut to = at;
    for byte in bytes {
        to = put_hex_byte(&mut *out, to, *byte);
    }
    to
}

// Bytes behind a space; nothing where there are none.
fn put_behind_space(out: &mut [u8], at: usize, bytes: &[u8]) -> usize
    requires { at + 1 + 2 * length bytes.now ≤ length out.old }
    ensures { Pushed out.old at (behind_space bytes.now) out.new result }
{
    if bytes.len() == 0 {
        return at;
    }
    let to = put_byte(&mut *out, at, SPACE);
    put_hex(out, to, bytes)
}

// Bytes as they are, for which there is room.
fn copy_word(out: &mut [u8], at: usize, word: &[u8]) -> usize
    requires { at + length word.now ≤ length out.old }
    ensures { Pushed out.old at word.now out.new result }
{
    let end = at + word.len();
    out[at..end].copy_from_slice(word);
    end
}

// A record's number, its answer and its bytes, for which there is room: its line without the end.
fn write_front(out: &mut [u8], at: usize, number: u64, answer: u8, bytes: &[u8]) -> usize
    requires { at + longest_line + 2 * length bytes.now ≤ length out.old }
    ensures { Pushed out.old at (front number answer bytes.now) out.new result }
{
    let to = put_decimal(&mut *out, at, number);
    let to = put_byte(&mut *out, to, SPACE);
    let to = put_decimal(&mut *out, to, answer as u64);
    put_behind_space(out, to, bytes)
}

// A record's line, for which there is room.
fn write_line(out: &mut [u8], at: usize, number: u64, answer: u8, bytes: &[u8]) -> usize
    requires { at + longest_line + 2 * length bytes.now ≤ length out.old }
    ensures { Pushed out.old at (line number answer bytes.now) out.new result }
{
    let to = write_front(&mut *out, at, number, answer, bytes);
    put_byte(out, to, NEWLINE)
}

fn letter_of(level: Level) -> u8
    ensures { result ≡ letter level }
{
    match level {
        Level::Low => b'0',
        Level::High => b'1',
        Level::Released => b'Z',
    }
}

// The letters of both pins, each behind a space, and the line's end, for which there is room.
fn write_letters(out: &mut [u8], at: usize, pins: Pins) -> usize
    requires { at + letters_length ≤ length out.old }
    ensures { Pushed out.old at (letters pins) out.new result }
{
    let int1 = pins.int1;
    let int2 = pins.int2;
    out[at] = SPACE;
    out[at + 1] = letter_of(int1);
    out[at + 2] = SPACE;
    out[at + 3] = letter_of(int2);
    out[at + 4] = NEWLINE;
    at + LETTERS_LENGTH
}

// A record's line with the pins behind it, for which there is room.
fn write_line_with_pins(
    out: &mut [u8],
    at: usize,
    number: u64,
    answer: u8,
    bytes: &[u8],
    pins: Pins,
) -> usize
    requires { at + longest_with_pins + 2 * length bytes.now ≤ length out.old }
    ensures { Pushed out.old at (line_with_pins number answer bytes.now pins) out.new result }
{
    let to = write_front(&mut *out, at, number, answer, bytes);
    write_letters(out, to, pins)
}

// The last line, for which there is room.
fn write_pins(out: &mut [u8], at: usize, pins: Pins) -> usize
    requires { at + pins_length ≤ length out.old }
    ensures { Pushed out.old at (pins_line pins) out.new result }
{
    let to = copy_word(&mut *out, at, b"pins");
    write_letters(out, to, pins)
}

// A record's line from a place on: the place behind it. Where there is not room for the longest line with so many bytes, nothing
// is written and the place is given back.
pub fn put_line(out: &mut [u8], at: usize, number: u64, answer: u8, bytes: &[u8]) -> usize
    ensures { (result ≡ place_after (longest_line + 2 * length bytes.now) out.old at (line number answer bytes.now)) × (out.new ≡ left_in (longest_line + 2 * length bytes.now) out.old at (line number answer bytes.now)) }
{
    if lacks_hex_room(out.len(), at, LONGEST_LINE, bytes.len()) {
        return at;
    }
    write_line(out, at, number, answer, bytes)
}

// A record's line with the pins behind it, in the same way.
pub fn put_line_with_pins(
    out: &mut [u8],
    at: usize,
    number: u64,
    answer: u8,
    bytes: &[u8],
    pins: Pins,
) -> usize
    ensures { (result ≡ place_after (longest_with_pins + 2 * length bytes.now) out.old at (line_with_pins number answer bytes.now pins)) × (out.new ≡ left_in (longest_with_pins + 2 * length bytes.now) out.old at (line_with_pins number answer bytes.now pins)) }
{
    if lacks_hex_room(out.len(), at, LONGEST_WITH_PINS, bytes.len()) {
        return at;
    }
    write_line_with_pins(out, at, number, answer, bytes, pins)
}

// The last line, in the same way.
pub fn put_pins(out: &mut [u8], at: usize, pins: Pins) -> usize
    ensures { (result ≡ place_after pins_length out.old at (pins_line pins)) × (out.new ≡ left_in pins_length out.old at (pins_line pins)) }
{
    if lacks_room(out.len(), at, PINS_LENGTH) {
        return at;
    }
    write_pins(out, at, pins)
}

// A number in decimal from a place on, in the same way.
pub fn put_number(out: &mut [u8], at: usize, n: u64) -> usize
    ensures { (result ≡ place_after most_digits out.old at (decimal n)) × (out.new ≡ left_in most_digits out.old at (decimal n)) }
{
    if lacks_room(out.len(), at, MOST_DIGITS) {
        return at;
    }
    put_decimal(out, at, n)
}

// A byte in capital hex, in the same way.
pub fn put_in_hex(out: &mut [u8], at: usize, byte: u8) -> usize
    ensures { (result ≡ place_after 2 out.old at (hex (byte ∷ []))) × (out.new ≡ left_in 2 out.old at (hex (byte ∷ []))) }
{
    if lacks_room(out.len(), at, 2) {
        return at;
    }
    put_hex_byte(out, at, byte)
}

// Bytes as they are, in the same way.
pub fn put_word(out: &mut [u8], at: usize, word: &[u8]) -> usize
    ensures { (result ≡ place_after (length word.now) out.old at word.now) × (out.new ≡ left_in (length word.now) out.old at word.now) }
{
    if lacks_room(out.len(), at, word.len()) {
        return at;
    }
    copy_word(out, at, word)
}
