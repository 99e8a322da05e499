// Replays each log of data/, whose files are named 000, 001, .., and prints what the log's writer answers at the edges of its room.
#![tactic(auto)]

use benchlog::{ClockEntry, CycleEntry, Entry, WriteEntry, room_number_of};
use logwriter::{write_entry, write_version};
use std::fs::File;
use std::io::Write;
use std::str;

// The last decimal digit of a number.
fn digit(n: u16) -> u8 {
    48 + (n % 10) as u8
}

// Replays one log, below a line with its name.
fn case<W: Write>(rt: &HostRuntime, out: &mut W, n: u16) -> bool {
    let name = [digit(n / 100), digit(n / 10), digit(n)];
    let Ok(path) = str::from_utf8(&name) else {
        return false;
    };
    let Ok(mut log) = File::open(rt, path) else {
        return false;
    };
    show::text(&mut *out, &name);
    show::text(&mut *out, b"\n");
    stream::pump_replay(&mut log, out, false);
    true
}

fn put_number<W: Write>(out: &mut W, n: u64) {
    show::number(&mut *out, n);
    show::text(out, b" ");
}

// The writer's number, the next place, which is the same where there was no room, and the bytes, for a record at a place of a buffer.
fn put_written<W: Write>(out: &mut W, buffer: &mut [u8], place: usize, entry: Entry) {
    let written = write_entry(&mut *buffer, place, entry);
    put_number(&mut *out, room_number_of(written) as u64);
    put_number(&mut *out, written.unwrap_or(place) as u64);
    show::bytes(&mut *out, &*buffer);
    show::text(out, b"\n");
}

// 10: a version byte with and without room for it.
fn versions<W: Write>(out: &mut W) {
    let mut one = [0xEEu8; 1];
    for place in [0, 1, usize::MAX] {
        let written = write_version(&mut one, place);
        put_number(&mut *out, room_number_of(written) as u64);
    }
    show::bytes(&mut *out, &one);
    show::text(out, b"\n");
}

// 10: a write with exactly its room, and with a byte less; a cycle start at a place past the end.
fn records<W: Write>(out: &mut W) {
    let entry = Entry::Write(WriteEntry {
        address: 0x3E,
        byte: 0x40,
    });
    let mut six = [0xEEu8; 6];
    put_written(&mut *out, &mut six, 1, entry);
    let mut five = [0xEEu8; 5];
    put_written(&mut *out, &mut five, 1, entry);
    let mut three = [0xEEu8; 3];
    put_written(&mut *out, &mut three, 0, Entry::CycleStart(CycleEntry {}));
    put_written(
        out,
        &mut three,
        18446744073709551614,
        Entry::CycleStart(CycleEntry {}),
    );
}

// 10: a clock with exactly its room, and with a byte less.
fn clocks<W: Write>(out: &mut W) {
    let entry = Entry::Clock(ClockEntry {
        microseconds: 0x12345678,
    });
    let mut seven = [0xEEu8; 7];
    put_written(&mut *out, &mut seven, 0, entry);
    let mut six = [0xEEu8; 6];
    put_written(&mut *out, &mut six, 0, entry);
}

fn main(rt: HostRuntime) {
    let mut out = rt.stdout();
    versions(&mut out);
    records(&mut out);
    clocks(&mut out);
    for n in 0..1000 {
        if !case(&rt, &mut out, n) {
            return;
        }
    }
}
