// What the codes of 0F, 21, 27 and 3E mean, and the addresses that more than one rule names.
#![tactic(auto)]

ghost use Rattle.std.specs.Prelude.{◌≡◌};
ghost use Rattle.codes.specs.Range.{range_of, is_reserved_range};
ghost use Rattle.codes.specs.Latch.{latch_of, is_unlatched, hold_of};
ghost use Rattle.codes.specs.Mode.{mode_of, is_reserved_mode};
ghost use Rattle.codes.specs.Axes.{axes_of};
ghost use Rattle.codes.specs.Wait.{wait_code, wait_of, is_reserved_wait};

// The measuring range.
pub const RANGE_AT: usize = 0x0F;

// The power mode.
pub const POWER_AT: usize = 0x11;

// Bit 6 is 1 where no lock is wanted.
pub const SHADOW_AT: usize = 0x13;

// Where 0xB6 is a soft reset.
pub const RESET_AT: usize = 0x14;

// The axes of any-motion, and the enables of data, full and watermark.
pub const AXES_AT: usize = 0x16;

pub const ENABLES_AT: usize = 0x17;

// Slow motion and no-motion: the axes, and which of the two it is.
pub const SLOW_AT: usize = 0x18;

// The pins' active levels and drives.
pub const DRIVE_AT: usize = 0x20;

// The latch mode.
pub const LATCH_AT: usize = 0x21;

// Low-g's delay and threshold; the hystereses of low-g and of high-g, with low-g's mode; high-g's delay and threshold.
pub const LOW_DELAY_AT: usize = 0x22;

pub const LOW_THRESHOLD_AT: usize = 0x23;

pub const HYSTERESES_AT: usize = 0x24;

pub const HIGH_DELAY_AT: usize = 0x25;

pub const HIGH_THRESHOLD_AT: usize = 0x26;

// Any-motion's points in a row, with slow motion's and no-motion's code; and any-motion's threshold.
pub const POINTS_AT: usize = 0x27;

pub const THRESHOLD_AT: usize = 0x28;

// The threshold of slow motion and no-motion.
pub const SLOW_THRESHOLD_AT: usize = 0x29;

// The watermark's level.
pub const LEVEL_AT: usize = 0x30;

// The offsets of the three axes.
pub const X_OFFSET_AT: usize = 0x38;

pub const Y_OFFSET_AT: usize = 0x39;

pub const Z_OFFSET_AT: usize = 0x3A;

// The two bytes that a soft reset leaves.
pub const FIRST_SPARE_AT: usize = 0x3B;

pub const SECOND_SPARE_AT: usize = 0x3C;

// The FIFO's mode and axes.
pub const CONTROL_AT: usize = 0x3E;

// The last address, at which reads stay: the FIFO's frames.
pub const FRAMES_AT: usize = 0x3F;

// What the low nibble of 0x0F means.
#[derive(Clone, Copy, PartialEq, Eq)]
pub enum Range {
    G2,
    G4,
    G8,
    G16,
    Reserved,
}

// What the low nibble of 0x21 means: a status is not latched, is latched, or is held for so many microseconds.
#[derive(Clone, Copy, PartialEq, Eq)]
pub enum Latch {
    Unlatched,
    Latched,
    Timed(u32),
}

// The mode bits of 0x3E. The reserved code is refused before it can be stored.
#[derive(Clone, Copy, PartialEq, Eq)]
pub enum Mode {
    Bypass,
    Fifo,
    Stream,
    Reserved,
}

// The axes that 0x3E selects.
#[derive(Clone, Copy, PartialEq, Eq)]
pub enum Axes {
    All,
    X,
    Y,
    Z,
}

// The range of a byte of 0x0F.
#[tactic(auto, unfolding(crate::specs::Range::range_of))]
pub fn range_of(byte: u8) -> Range
    ensures { result ≡ range_of byte }
{
    match byte % 16 {
        0b0011 => Range::G2,
        0b0101 => Range::G4,
        0b1000 => Range::G8,
        0b1100 => Range::G16,
        _ => Range::Reserved,
    }
}

pub fn is_reserved_range(range: Range) -> bool
    ensures { result ≡ is_reserved_range range }
{
    matches!(range, Range::Reserved)
}

// The latch mode of a byte of 0x21. Of the sixteen codes 1111 is what the list leaves.
#[tactic(auto, unfolding(crate::specs::Latch::latch_of))]
pub fn latch_of(byte: u8) -> Latch
    ensures { result ≡ latch_of byte }
{
    match byte % 16 {
        0b0000 => Latch::Unlatched,
        0b0001 => Latch::Timed(250_000),
        0b0010 => Latch::Timed(500_000),
        0b0011 => Latch::Timed(1_000_000),
        0b0100 => Latch::Timed(2_000_000),
        0b0101 => Latch::Timed(4_000_000),
        0b0110 => Latch::Timed(8_000_000),
        0b0111 => Latch::Latched,
        0b1000 => Latch::Unlatched,
        0b1001 => Latch::Timed(250),
        0b1010 => Latch::Timed(500),
        0b1011 => Latch::Timed(1_000),
        0b1100 => Latch::Timed(12_500),
        0b1101 => Latch::Timed(25_000),
        0b1110 => Latch::Timed(50_000),
        _ => Latch::Latched,
    }
}

pub fn is_unlatched(latch: Latch) -> bool
    ensures { result ≡ is_unlatched latch }
{
    matches!(latch, Latch::Unlatched)
}

// How long a status is held, in microseconds; 0 where no time clears it, as an alarm's time and the theorems on it have it.
pub fn hold_of(latch: Latch) -> u32
    ensures { result ≡ hold_of latch }
{
    match latch {
        Latch::Unlatched | Latch::Latched => 0,
        Latch::Timed(microseconds) => microseconds,
    }
}

// The mode of a byte of 0x3E.
#[tactic(auto, unfolding(crate::specs::Mode::mode_of))]
pub fn mode_of(byte: u8) -> Mode
    ensures { result ≡ mode_of byte }
{
    match byte / 64 {
        0b00 => Mode::Bypass,
        0b01 => Mode::Fifo,
        0b10 => Mode::Stream,
        _ => Mode::Reserved,
    }
}

pub fn is_reserved_mode(mode: Mode) -> bool
    ensures { result ≡ is_reserved_mode mode }
{
    matches!(mode, Mode::Reserved)
}

// The axes of a byte of 0x3E.
#[tactic(auto, unfolding(crate::specs::Axes::axes_of))]
pub fn axes_of(byte: u8) -> Axes
    ensures { result ≡ axes_of byte }
{
    match byte % 4 {
        0b00 => Axes::All,
        0b01 => Axes::X,
        0b10 => Axes::Y,
        _ => Axes::Z,
    }
}

// The code of no-motion's wait in a byte of 0x27; its lowest two bits are slow motion's points.
pub fn wait_code(byte: u8) -> u8
    ensures { result ≡ wait_code byte }
{
    byte / 4 % 64
}

// For how many microseconds no-motion waits by a code; 0 for a code without a meaning, as the theorems on no-motion name it.
#[tactic(auto, unfolding(crate::specs::Wait::wait_of))]
pub fn wait_of(code: u8) -> u32
    ensures { result ≡ wait_of code }
{
    let steps = code as u32;
    match code {
        0..=15 => (steps + 1) * 1_000_000,
        16..=21 => (40 + 8 * (steps - 16)) * 1_000_000,
        32..=63 => (88 + 8 * (steps - 32)) * 1_000_000,
        _ => 0,
    }
}

// Whether a byte of 0x27 has a code without a meaning for no-motion.
pub fn is_reserved_wait(byte: u8) -> bool
    ensures { result ≡ is_reserved_wait byte }
{
    wait_of(wait_code(byte)) == 0
}
