// The device in parts: its registers and its FIFO's store are lent, and the rest, the core, goes by value. So whoever keeps a device over
// many events need not copy what an event leaves alone. Each contract is that of the event by value, of the device that the parts are.
ghost use Rattle.std.specs.Prelude.{◌≡◌, ℕ, List, length};
ghost use Rattle.device.specs.Parts.{core_of, registers_of, frames_of, whole, answered_whole};
ghost use Rattle.device.specs.Show.{inside_in, pins_of, held_in, range_in, mode_in, stored_in};
ghost use Rattle.device.specs.Write.{write_of};
ghost use Rattle.device.specs.Read.{read_of, buffer_after};
ghost use Rattle.device.specs.Sample.{sample_of, cycle_of};
ghost use Rattle.device.specs.Clock.{clock_of};

use crate::Device;
use crate::frame::frame_of;
use crate::reading::burst;
use crate::showing::{Inside, statuses_in};
use crate::verdict::sample_answer;
use crate::writing::{write_channels, write_registers};
use channels::{Channels, codes_of};
use codes::{CONTROL_AT, FRAMES_AT, Mode, RANGE_AT, Range, SHADOW_AT, axes_of, mode_of, range_of};
use detectors::Detectors;
use fifo::{Fifo, ROOM};
use interrupts::{Pin, Pins, pin_level};
use laws::bit;
use offsets::{Stored, stored_by};
use registers::{Answer, is_accepted, judge_write, read_answer};

// A device without its registers and its FIFO's store.
#[repr(C)]
#[derive(Clone, Copy)]
pub struct Core {
    channels: Channels,
    // the byte of 0x08
    temperature: u8,
    // whether an accepted sample came since the last cycle start or reset
    came: bool,
    // the FIFO's numbers
    fifo: Fifo,
    detectors: Detectors,
}

// An event's answer, and the core after it.
#[derive(Clone, Copy)]
pub struct CoreAnswered {
    pub answer: Answer,
    pub core: Core,
}

impl Core {
    // What shows beside registers and channels.
    fn inside(self) -> Inside
        ensures { result ≡ inside_in self }
    {
        Inside {
            temperature: self.temperature,
            came: self.came,
            fifo: self.fifo,
            alarms: self.detectors.alarms(),
        }
    }

    // A register write.
    pub fn write(
        mut self,
        regs: &mut [u8; 64],
        frames: &mut [u8; ROOM],
        address: u8,
        byte: u8,
    ) -> CoreAnswered
        ensures { answered_whole result regs.new frames.new
            ≡ write_of (whole self regs.old frames.old) address byte }
    {
        let judged = judge_write(&*regs, address, byte);
        let deeds = judged.deeds;
        write_registers(regs, deeds, address, judged.stored);
        self.channels = write_channels(self.channels, deeds);
        self.detectors = self.detectors.after_write(deeds);
        self.fifo = self.fifo.emptied_when(frames, deeds.empties);
        if deeds.resets {
            self.temperature = 0;
            self.came = false;
        }
        CoreAnswered {
            answer: judged.answer,
            core: self,
        }
    }

    // A burst read into a lent buffer, whose own length is the read length.
    pub fn read(
        mut self,
        regs: &[u8; 64],
        frames: &mut [u8; ROOM],
        address: u8,
        buffer: &mut [u8],
    ) -> CoreAnswered
        ensures { (answered_whole result regs.now frames.new
            ≡ read_of (whole self regs.now frames.old) address (length buffer.old))
            × (buffer.new ≡ buffer_after (whole self regs.now frames.old) address buffer.old) }
    {
        let answer = read_answer(address, buffer.len());
        if is_accepted(answer) {
            if address as usize == FRAMES_AT {
                let axes = axes_of(regs[CONTROL_AT]);
                self.fifo = self.fifo.readout(frames, Device::DEPTH, axes, buffer);
            } else {
                let locks = !bit(regs[SHADOW_AT], 6);
                self.channels = burst(self.channels, locks, self.inside(), regs, address, buffer);
            }
        }
        CoreAnswered { answer, core: self }
    }

    // A sample. Whether it is accepted goes by what is given; channels, FIFO and detectors see what is stored of it.
    pub fn sample(
        mut self,
        regs: &[u8; 64],
        frames: &mut [u8; ROOM],
        x: i16,
        y: i16,
        z: i16,
        temperature: u8,
    ) -> CoreAnswered
        ensures { answered_whole result regs.now frames.new
            ≡ sample_of (whole self regs.now frames.old) x y z temperature }
    {
        let answer = sample_answer(x, y, z);
        if is_accepted(answer) {
            let stored = stored_by(regs, x, y, z);
            let codes = codes_of(stored.x, stored.y, stored.z);
            let control = regs[CONTROL_AT];
            let axes = axes_of(control);
            let mode = mode_of(control);
            self.channels = self.channels.sample(codes);
            self.temperature = temperature;
            self.came = true;
            let frame = frame_of(axes, codes);
            self.fifo = self.fifo.push(frames, Device::DEPTH, mode, axes, frame);
            self.detectors = self.detectors.sample(regs, stored.x, stored.y, stored.z);
        }
        CoreAnswered { answer, core: self }
    }

    // The start of an acquisition cycle.
    #[tactic(auto, unfolding(crate::specs::Sample::cycle_of))]
    pub fn start_cycle(mut self) -> CoreAnswered
        ensures { (regs frames : List ℕ) → answered_whole result regs frames ≡ cycle_of (whole self regs frames) }
    {
        self.came = false;
        CoreAnswered {
            answer: Ok(()),
            core: self,
        }
    }

    // A clock of so many microseconds.
    #[tactic(auto, unfolding(crate::specs::Clock::clock_of))]
    pub fn clock(mut self, microseconds: u32) -> CoreAnswered
        ensures { (regs frames : List ℕ) → answered_whole result regs frames ≡ clock_of (whole self regs frames) microseconds }
    {
        self.detectors = self.detectors.clock(microseconds);
        CoreAnswered {
            answer: Ok(()),
            core: self,
        }
    }

    // Both pin levels.
    #[tactic(auto, unfolding(crate::specs::Show::pins_of))]
    pub fn pins(self, regs: &[u8; 64]) -> Pins
        ensures { (frames : List ℕ) → result ≡ pins_of (whole self regs.now frames) }
    {
        let statuses = statuses_in(regs, self.inside());
        Pins {
            int1: pin_level(Pin::Int1, statuses, regs),
            int2: pin_level(Pin::Int2, statuses, regs),
        }
    }

    // How many frames the FIFO holds.
    pub fn held(self) -> usize
        ensures { (regs frames : List ℕ) → result ≡ held_in (whole self regs frames) }
    {
        self.fifo.count(Device::DEPTH)
    }
}

// The measuring range.
pub fn range_in(regs: &[u8; 64]) -> Range
    ensures { (core : Core) (frames : List ℕ) → result ≡ range_in (whole core regs.now frames) }
{
    range_of(regs[RANGE_AT])
}

// The FIFO's mode.
pub fn mode_in(regs: &[u8; 64]) -> Mode
    ensures { (core : Core) (frames : List ℕ) → result ≡ mode_in (whole core regs.now frames) }
{
    mode_of(regs[CONTROL_AT])
}

// What would be stored of a sample.
pub fn stored_in(regs: &[u8; 64], x: i16, y: i16, z: i16) -> Stored
    ensures { (core : Core) (frames : List ℕ) → result ≡ stored_in (whole core regs.now frames) x y z }
{
    stored_by(regs, x, y, z)
}

impl Device {
    // The core.
    pub fn core(self) -> Core
        ensures { result ≡ core_of self }
    {
        Core {
            channels: self.channels,
            temperature: self.temperature,
            came: self.came,
            fifo: self.fifo,
            detectors: self.detectors,
        }
    }

    // The registers.
    pub fn registers(self) -> [u8; 64]
        ensures { result ≡ registers_of self }
    {
        self.regs
    }

    // The FIFO's store.
    pub fn frames(self) -> [u8; ROOM]
        ensures { result ≡ frames_of self }
    {
        self.frames
    }

    // The device of its parts.
    pub fn of_parts(core: Core, regs: [u8; 64], frames: [u8; ROOM]) -> Self
        ensures { result ≡ whole core regs frames }
    {
        Device {
            regs,
            channels: core.channels,
            temperature: core.temperature,
            came: core.came,
            frames,
            fifo: core.fifo,
            detectors: core.detectors,
        }
    }
}
