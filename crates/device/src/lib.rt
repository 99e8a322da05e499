// The device of 01: its record, its five events and Q-4's clock, and four questions. Each event takes the record by value and hands it back.
#![tactic(auto)]

ghost use Rattle.std.specs.Prelude.{◌≡◌, length};
ghost use Rattle.device.specs.Device.{power_up};
ghost use Rattle.device.specs.Parts.{registers_of, frames_of, answered_whole};
ghost use Rattle.device.specs.Show.{pins_of, held_in, range_in, mode_in};
ghost use Rattle.device.specs.Write.{write_of};
ghost use Rattle.device.specs.Read.{read_of, buffer_after};
ghost use Rattle.device.specs.Sample.{sample_of, cycle_of};
ghost use Rattle.device.specs.Clock.{clock_of};

use channels::Channels;
use codes::{Mode, Range};
use detectors::Detectors;
use fifo::{Fifo, ROOM, no_frames};
use interrupts::Pins;
use registers::Answer;

mod frame;
pub mod parts;
mod reading;
mod showing;
mod verdict;
mod writing;

use parts::{CoreAnswered, mode_in, range_in};
use writing::first_bytes;

#[repr(C)]
#[derive(Clone, Copy)]
pub struct Device {
    regs: [u8; 64],
    channels: Channels,
    // the byte of 0x08
    temperature: u8,
    // whether an accepted sample came since the last cycle start or reset
    came: bool,
    // the FIFO's store, and its numbers
    frames: [u8; ROOM],
    fifo: Fifo,
    detectors: Detectors,
}

// An event's answer, and the device after it.
#[derive(Clone, Copy)]
pub struct Answered {
    pub answer: Answer,
    pub device: Device,
}

impl Device {
    pub const CHIP: u8 = 0xFA;

    pub const DEPTH: usize = 32;

    #[tactic(auto, unfolding(crate::specs::Device::power_up))]
    pub fn power_up() -> Self
        ensures { result ≡ power_up }
    {
        let regs = first_bytes();
        let frames = no_frames();
        Device {
            regs,
            channels: Channels::empty(),
            temperature: 0,
            came: false,
            frames,
            fifo: Fifo::empty(),
            detectors: Detectors::quiet(),
        }
    }

    // A register write.
    pub fn write(mut self, address: u8, byte: u8) -> Answered
        ensures { result ≡ write_of self address byte }
    {
        let done = self
            .core()
            .write(&mut self.regs, &mut self.frames, address, byte);
        self.answered(done)
    }

    // A burst read into a lent buffer, whose own length is the read length.
    pub fn read(mut self, address: u8, buffer: &mut [u8]) -> Answered
        ensures { (result ≡ read_of self address (length buffer.old)) × (buffer.new ≡ buffer_after self address buffer.old) }
    {
        let done = self
            .core()
            .read(&self.regs, &mut self.frames, address, buffer);
        self.answered(done)
    }

    // A sample.
    pub fn sample(mut self, x: i16, y: i16, z: i16, temperature: u8) -> Answered
        ensures { result ≡ sample_of self x y z temperature }
    {
        let done = self
            .core()
            .sample(&self.regs, &mut self.frames, x, y, z, temperature);
        self.answered(done)
    }

    // With the core that an event left, and its answer.
    fn answered(self, done: CoreAnswered) -> Answered
        ensures { result ≡ answered_whole done (registers_of self) (frames_of self) }
    {
        Answered {
            answer: done.answer,
            device: Device::of_parts(done.core, self.regs, self.frames),
        }
    }

    // The start of an acquisition cycle.
    #[tactic(auto, unfolding(crate::specs::Sample::cycle_of))]
    pub fn start_cycle(mut self) -> Answered
        ensures { result ≡ cycle_of self }
    {
        self.came = false;
        Answered {
            answer: Ok(()),
            device: self,
        }
    }

    // A clock of so many microseconds.
    #[tactic(auto, unfolding(crate::specs::Clock::clock_of))]
    pub fn clock(mut self, microseconds: u32) -> Answered
        ensures { result ≡ clock_of self microseconds }
    {
        self.detectors = self.detectors.clock(microseconds);
        Answered {
            answer: Ok(()),
            device: self,
        }
    }

    // Both pin levels.
    pub fn pins(self) -> Pins
        ensures { result ≡ pins_of self }
    {
        self.core().pins(&self.regs)
    }

    // How many frames the FIFO holds.
    pub fn held(self) -> usize
        ensures { result ≡ held_in self }
    {
        self.core().held()
    }

    // The measuring range.
    pub fn range(self) -> Range
        ensures { result ≡ range_in self }
    {
        range_in(&self.regs)
    }

    // The FIFO's mode.
    pub fn mode(self) -> Mode
        ensures { result ≡ mode_in self }
    {
        mode_in(&self.regs)
    }
}
