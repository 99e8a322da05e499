// What 0x08 to 0x0E show: computed where it is asked for.
ghost use Rattle.std.specs.Prelude.{◌≡◌};
ghost use Rattle.device.specs.Show.{sources_of, statuses_in, shown_byte};

use crate::Device;
use codes::{CONTROL_AT, mode_of};
use detectors::Alarms;
use fifo::{Fifo, depth_in};
use interrupts::{Sources, Statuses, data_byte, detector_byte, statuses_of};

// What shows beside registers and channels.
#[derive(Clone, Copy)]
pub struct Inside {
    pub temperature: u8,
    pub came: bool,
    pub fifo: Fifo,
    pub alarms: Alarms,
}

// What the statuses are made of.
fn sources_of(regs: &[u8; 64], inside: Inside) -> Sources
    ensures { result ≡ sources_of regs.now inside }
{
    Sources {
        count: inside.fifo.count(Device::DEPTH),
        depth: depth_in(Device::DEPTH, mode_of(regs[CONTROL_AT])),
        came: inside.came,
        fell: inside.alarms.low.is_set(),
        hit: inside.alarms.high.is_set(),
        moved: inside.alarms.motion.is_set(),
        slow: inside.alarms.slow.is_set(),
    }
}

pub fn statuses_in(regs: &[u8; 64], inside: Inside) -> Statuses
    ensures { result ≡ statuses_in regs.now inside }
{
    statuses_of(regs, sources_of(regs, inside))
}

// The byte of an address that is no data register.
#[tactic(auto, unfolding(crate::specs::Show::shown_byte))]
pub fn shown_byte(inside: Inside, regs: &[u8; 64], at: usize) -> u8
    ensures { result ≡ shown_byte inside regs.now at }
{
    match at {
        0x08 => inside.temperature,
        0x09 => detector_byte(statuses_in(regs, inside)),
        0x0A => data_byte(statuses_in(regs, inside)),
        0x0B => inside.alarms.motion.marks(),
        0x0C => inside.alarms.high.marks(),
        0x0E => inside.fifo.status(Device::DEPTH),
        _ => { if at < 64 { regs[at] } else { 0 } }
    }
}
