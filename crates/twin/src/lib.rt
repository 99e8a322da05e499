// The thin entry of 01 for the bench harness: it borrows the harness's own record and updates it for one event.
// C calls these functions by their names: the crate twin_c exports each, and library/entry.c looks at pointers first. The 4 in their names
// is the header's major version.
#![tactic(auto)]

ghost use Rattle.std.specs.Prelude.{◌≡◌, ℕ, List, length};
ghost use prog.Memory.{size, align};
ghost use Rattle.device.specs.Device.{power_up};
ghost use Rattle.device.specs.Parts.{whole};
ghost use Rattle.registers.specs.Answers.{number};
ghost use Rattle.twin.specs.Entry.{harness_type, device_in, asked, step_of, stepped_whole, lent_at, pins_code, level_code};

use benchlog::{CLOCK, CYCLE, READ, Refusal, SAMPLE, WRITE};
use device::Device;
use device::parts::{Core, CoreAnswered};
use fifo::ROOM;
use interrupts::Level;
use registers::number_of;

// The harness's own record: the device in parts. C sees its first byte, the chip number.
#[repr(C)]
#[derive(Clone, Copy)]
pub struct Harness {
    regs: [u8; 64],
    core: Core,
    frames: [u8; ROOM],
}

// The number of an event's answer, and the core after it.
#[derive(Clone, Copy)]
pub struct Stepped {
    pub number: u8,
    pub core: Core,
}

fn numbered(done: CoreAnswered) -> Stepped
    ensures { result ≡ record { number = number done.answer; core = done.core } }
{
    Stepped {
        number: number_of(done.answer),
        core: done.core,
    }
}

// One event, by its kind in the log: a write of a byte, a read of as many bytes as the buffer has, a sample whose temperature is the
// byte, the start of a cycle, or a clock of so many microseconds. Any other kind is refused. The registers and the FIFO's store are lent.
#[tactic(auto, unfolding(crate::specs::Entry::asked))]
pub fn step(
    core: Core,
    regs: &mut [u8; 64],
    frames: &mut [u8; ROOM],
    kind: u8,
    address: u8,
    byte: u8,
    x: i16,
    y: i16,
    z: i16,
    buffer: &mut [u8],
    microseconds: u32,
) -> Stepped
    ensures { (stepped_whole result regs.new frames.new
        ≡ step_of (whole core regs.old frames.old) (asked kind address byte x y z (length buffer.old) microseconds))
        × (buffer.new ≡ lent_at (whole core regs.old frames.old) (asked kind address byte x y z (length buffer.old) microseconds) buffer.old) }
{
    match kind {
        WRITE => numbered(core.write(regs, frames, address, byte)),
        READ => numbered(core.read(&*regs, frames, address, buffer)),
        SAMPLE => numbered(core.sample(&*regs, frames, x, y, z, byte)),
        CYCLE => numbered(core.start_cycle()),
        CLOCK => numbered(core.clock(microseconds)),
        _ => Stepped {
            number: u8::from(Refusal::WrongRecord),
            core,
        },
    }
}

// 0 for low, 1 for high, 2 for released.
fn level_code(level: Level) -> u8
    ensures { result ≡ level_code level }
{
    match level {
        Level::Low => 0,
        Level::High => 1,
        Level::Released => 2,
    }
}

// Both pin levels in one byte: INT1 in bits 1:0, INT2 in bits 3:2.
#[tactic(auto, unfolding(crate::specs::Entry::pins_code))]
pub fn pins_code(core: Core, regs: [u8; 64]) -> u8
    ensures { (frames : List ℕ) → result ≡ pins_code (whole core regs frames) }
{
    let pins = core.pins(&regs);
    level_code(pins.int1) + 4 * level_code(pins.int2)
}

impl Harness {
    // The parts of a device at power-up.
    fn power_up() -> Self
        ensures { device_in result ≡ power_up }
    {
        let device = Device::power_up();
        Harness {
            regs: device.registers(),
            core: device.core(),
            frames: device.frames(),
        }
    }
}

// One event, on the harness's own record: its registers and its store are lent where they lie, and the core goes by value.
pub fn twin_4_proved_event(
    d: &mut Harness,
    kind: u8,
    address: u8,
    byte: u8,
    x: i16,
    y: i16,
    z: i16,
    buffer: &mut [u8],
    microseconds: u32,
) -> u8
    ensures { (result ≡ (step_of (device_in d.old) (asked kind address byte x y z (length buffer.old) microseconds)).number)
        × (device_in d.new ≡ (step_of (device_in d.old) (asked kind address byte x y z (length buffer.old) microseconds)).device)
        × (buffer.new ≡ lent_at (device_in d.old) (asked kind address byte x y z (length buffer.old) microseconds) buffer.old) }
{
    let s = step(
        d.core,
        &mut d.regs,
        &mut d.frames,
        kind,
        address,
        byte,
        x,
        y,
        z,
        buffer,
        microseconds,
    );
    d.core = s.core;
    s.number
}

// Power-up of the harness's own record.
pub fn twin_4_proved_power_up(d: &mut Harness)
    ensures { device_in d.new ≡ power_up }
{
    *d = Harness::power_up();
}

// The pins of the harness's own record.
pub fn twin_4_proved_pins(d: &Harness) -> u8
    ensures { result ≡ pins_code (device_in d.now) }
{
    pins_code(d.core, d.regs)
}

// The bytes of the record, and what its address must be a multiple of.
pub fn twin_4_proved_size() -> usize
    ensures { result ≡ size harness_type }
{
    352
}

pub fn twin_4_proved_alignment() -> usize
    ensures { result ≡ align harness_type }
{
    4
}
