// Offsets: what is stored of a given sample, by the range and the bytes of 0x38 to 0x3A.
#![tactic(auto)]

ghost use Rattle.std.specs.Prelude.{◌≡◌};
ghost use Rattle.offsets.specs.Offsets.{step_of, signed_byte, held_inside, stored_axis, stored_by};

use codes::{RANGE_AT, Range, X_OFFSET_AT, Y_OFFSET_AT, Z_OFFSET_AT, range_of};

// A sample as it is stored.
#[derive(Clone, Copy)]
pub struct Stored {
    pub x: i16,
    pub y: i16,
    pub z: i16,
}

// How many counts one step of an offset is; none where the range is unknown.
fn step_of(range: Range) -> u8
    ensures { result ≡ step_of range }
{
    match range {
        Range::G2 => 8,
        Range::G4 => 4,
        Range::G8 => 2,
        Range::G16 => 1,
        Range::Reserved => 0,
    }
}

// The steps of an offset's byte, which is signed.
fn signed_byte(byte: u8) -> i16
    ensures { result ≡ signed_byte byte }
{
    let steps = byte as i16;
    if byte < 128 { steps } else { steps - 256 }
}

// A value that is held at -2048 or 2047 where it would pass.
fn held_inside(value: i32) -> i16
    ensures { result ≡ held_inside value }
{
    if value < -2048 {
        return -2048;
    }
    if 2047 < value {
        return 2047;
    }
    value as i16
}

// What is stored of a given axis, by the counts of a step and the byte of its offset.
fn stored_axis(step: u8, byte: u8, given: i16) -> i16
    ensures { result ≡ stored_axis step byte given }
{
    let steps = signed_byte(byte);
    held_inside(given as i32 + step as i32 * steps as i32)
}

// What is stored of a given sample, by the bytes that the registers hold.
#[tactic(auto, unfolding(crate::specs::Offsets::stored_by))]
pub fn stored_by(regs: &[u8; 64], x: i16, y: i16, z: i16) -> Stored
    ensures { result ≡ stored_by regs.now x y z }
{
    let step = step_of(range_of(regs[RANGE_AT]));
    Stored {
        x: stored_axis(step, regs[X_OFFSET_AT], x),
        y: stored_axis(step, regs[Y_OFFSET_AT], y),
        z: stored_axis(step, regs[Z_OFFSET_AT], z),
    }
}
