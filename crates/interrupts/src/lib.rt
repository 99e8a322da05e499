// Interrupts and pins of 01: when each status is 1, the bytes that show them, and the two pins.
#![tactic(auto)]

ghost use Rattle.std.specs.Prelude.{◌≡◌};
ghost use Rattle.laws.specs.Bits.{worth};
ghost use Rattle.interrupts.specs.Statuses as statuses;
ghost use Rattle.interrupts.specs.Maps.{all_statuses, status_byte, is_active, AreMapped, any_mapped};
ghost use Rattle.interrupts.specs.Pins as pins;

use codes::{DRIVE_AT, ENABLES_AT, LEVEL_AT};
use laws::bit;

// What the statuses are made of beside the registers: the frame count and the depth, whether an accepted sample came since the
// last cycle start or reset, and whether the alarms of low-g, of high-g, of any-motion, and of slow motion and no-motion are set.
#[derive(Clone, Copy)]
pub struct Sources {
    pub count: usize,
    pub depth: usize,
    pub came: bool,
    pub fell: bool,
    pub hit: bool,
    pub moved: bool,
    pub slow: bool,
}

// The statuses; `slow` is that of slow motion and no-motion, `ready` is 01's data.
#[derive(Clone, Copy)]
pub struct Statuses {
    pub low: bool,
    pub high: bool,
    pub motion: bool,
    pub slow: bool,
    pub ready: bool,
    pub watermark: bool,
    pub full: bool,
}

#[derive(Clone, Copy)]
pub enum Pin {
    Int1,
    Int2,
}

#[derive(Clone, Copy)]
pub enum Level {
    Low,
    High,
    Released,
}

#[derive(Clone, Copy)]
pub struct Pins {
    pub int1: Level,
    pub int2: Level,
}

// Whether the count has reached a level from 1 to the depth.
fn reached(count: usize, depth: usize, level: u8) -> bool
    ensures { result ≡ statuses.reached count depth level }
{
    let level = level as usize;
    1 <= level && level <= depth && level <= count
}

pub fn statuses_of(regs: &[u8; 64], sources: Sources) -> Statuses
    ensures { result ≡ statuses.statuses_of regs.now sources }
{
    let enables = regs[ENABLES_AT];
    Statuses {
        low: sources.fell,
        high: sources.hit,
        motion: sources.moved,
        slow: sources.slow,
        ready: bit(enables, 4) & sources.came,
        watermark: bit(enables, 6) & reached(sources.count, sources.depth, regs[LEVEL_AT]),
        full: bit(enables, 5) & (sources.count == sources.depth),
    }
}

// What a bit is worth where it is 1.
fn weigh(weight: u8, set: bool) -> u8
    ensures { result ≡ worth weight set }
{
    if set { weight } else { 0 }
}

// The byte of 0x09.
pub fn detector_byte(statuses: Statuses) -> u8
    ensures { result ≡ status_byte 0x09 statuses }
{
    weigh(1, statuses.low)
        + (weigh(2, statuses.high) + (weigh(4, statuses.motion) + weigh(8, statuses.slow)))
}

// The byte of 0x0A.
pub fn data_byte(statuses: Statuses) -> u8
    ensures { result ≡ status_byte 0x0A statuses }
{
    weigh(128, statuses.ready) + (weigh(64, statuses.watermark) + weigh(32, statuses.full))
}

// Whether some status is 1 and mapped. All seven are asked, without a branch.
fn any_mapped(statuses: Statuses, mapped: Statuses) -> bool
    ensures { result ≡ any_mapped statuses mapped all_statuses }
{
    let low = statuses.low & mapped.low;
    let high = statuses.high & mapped.high;
    let motion = statuses.motion & mapped.motion;
    let slow = statuses.slow & mapped.slow;
    let ready = statuses.ready & mapped.ready;
    let watermark = statuses.watermark & mapped.watermark;
    let full = statuses.full & mapped.full;
    low | (high | (motion | (slow | (ready | (watermark | full)))))
}

// Which statuses are mapped to a pin.
fn mapped_to(pin: Pin, regs: &[u8; 64]) -> Statuses
    ensures { AreMapped pin regs.now result all_statuses }
{
    let maps = regs[0x1A];
    match pin {
        Pin::Int1 => {
            let detectors = regs[0x19];
            Statuses {
                low: bit(detectors, 0),
                high: bit(detectors, 1),
                motion: bit(detectors, 2),
                slow: bit(detectors, 3),
                ready: bit(maps, 0),
                watermark: bit(maps, 1),
                full: bit(maps, 2),
            }
        }
        Pin::Int2 => {
            let detectors = regs[0x1B];
            Statuses {
                low: bit(detectors, 0),
                high: bit(detectors, 1),
                motion: bit(detectors, 2),
                slow: bit(detectors, 3),
                ready: bit(maps, 7),
                watermark: bit(maps, 6),
                full: bit(maps, 5),
            }
        }
    }
}

fn is_active(pin: Pin, statuses: Statuses, regs: &[u8; 64]) -> bool
    ensures { result ≡ is_active pin statuses regs.now }
{
    any_mapped(statuses, mapped_to(pin, regs))
}

// A pin's level, from whether it is active, whether its active level is high, and whether it is open-drive.
fn level_of(active: bool, high: bool, opendrive: bool) -> Level
    ensures { result ≡ pins.level_of active high opendrive }
{
    if active {
        return if high { Level::High } else { Level::Low };
    }
    if opendrive {
        return Level::Released;
    }
    if high { Level::Low } else { Level::High }
}

// The bits of 0x20 that give a pin's active level and its drive: two rows of the sheet, which a pair for each pin would not make plainer.
fn level_bit(pin: Pin) -> u8
    ensures { result ≡ pins.level_bit pin }
{
    match pin {
        Pin::Int1 => 0,
        Pin::Int2 => 2,
    }
}

fn open_bit(pin: Pin) -> u8
    ensures { result ≡ pins.open_bit pin }
{
    match pin {
        Pin::Int1 => 1,
        Pin::Int2 => 3,
    }
}

// The level of one pin.
pub fn pin_level(pin: Pin, statuses: Statuses, regs: &[u8; 64]) -> Level
    ensures { result ≡ pins.pin_level pin statuses regs.now }
{
    let drive = regs[DRIVE_AT];
    let active = is_active(pin, statuses, regs);
    level_of(
        active,
        bit(drive, level_bit(pin)),
        bit(drive, open_bit(pin)),
    )
}
