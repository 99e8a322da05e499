// What C calls of the twin, by the header's names: each function is that of crates/twin, and says the same. A crate is a library or a static
// library, so these stand by themselves; there is no code here but the calls.
#![tactic(auto)]

ghost use Rattle.std.specs.Prelude.{◌≡◌, length};
ghost use prog.Memory.{size, align};
ghost use Rattle.device.specs.Device.{power_up};
ghost use Rattle.twin.specs.Entry.{harness_type, device_in, asked, step_of, lent_at, pins_code};

use twin::Harness;

// One event, on the harness's own record: its registers and its store are lent where they lie, and the core goes by value.
#[unsafe(no_mangle)]
pub extern "C" fn twin_4_proved_event(
    d: &mut Harness,
    kind: u8,
    address: u8,
    byte: u8,
    x: i16,
    y: i16,
    z: i16,
    buffer: &mut [u8],
    microseconds: u32,
) -> u8
    ensures { (result ≡ (step_of (device_in d.old) (asked kind address byte x y z (length buffer.old) microseconds)).number)
        × (device_in d.new ≡ (step_of (device_in d.old) (asked kind address byte x y z (length buffer.old) microseconds)).device)
        × (buffer.new ≡ lent_at (device_in d.old) (asked kind address byte x y z (length buffer.old) microseconds) buffer.old) }
{
    twin::twin_4_proved_event(d, kind, address, byte, x, y, z, buffer, microseconds)
}

// Power-up of the harness's own record.
#[unsafe(no_mangle)]
pub extern "C" fn twin_4_proved_power_up(d: &mut Harness)
    ensures { device_in d.new ≡ power_up }
{
    twin::twin_4_proved_power_up(d);
}

// The pins of the harness's own record.
#[unsafe(no_mangle)]
pub extern "C" fn twin_4_proved_pins(d: &Harness) -> u8
    ensures { result ≡ pins_code (device_in d.now) }
{
    twin::twin_4_proved_pins(d)
}

// The bytes of the record, and what its address must be a multiple of.
#[unsafe(no_mangle)]
pub extern "C" fn twin_4_proved_size() -> usize
    ensures { result ≡ size harness_type }
{
    twin::twin_4_proved_size()
}

#[unsafe(no_mangle)]
pub extern "C" fn twin_4_proved_alignment() -> usize
    ensures { result ≡ align harness_type }
{
    twin::twin_4_proved_alignment()
}
