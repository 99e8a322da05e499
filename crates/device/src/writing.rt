// What a write does to the registers and the channels.
ghost use Rattle.std.specs.Prelude.{◌≡◌};
ghost use Rattle.device.specs.Device.{first_bytes};
ghost use Rattle.device.specs.Write.{regs_reset, stored_at, regs_written, channels_written};

use crate::Device;
use channels::Channels;
use codes::{FIRST_SPARE_AT, SECOND_SPARE_AT};
use registers::Deeds;
use table::reset_bytes;

// The register bytes at power-up.
#[tactic(auto, unfolding(crate::specs::Device::first_bytes))]
pub fn first_bytes() -> [u8; 64]
    ensures { result ≡ first_bytes }
{
    let mut bytes = reset_bytes();
    bytes[0x00] = Device::CHIP;
    bytes
}

// A byte into its register.
fn store(regs: &mut [u8; 64], address: u8, byte: u8)
    ensures { regs.new ≡ stored_at regs.old address byte }
{
    let at = address as usize;
    if at < 64 {
        regs[at] = byte;
    }
}

// As at power-up, but for 0x3B and 0x3C.
fn soft_reset(regs: &mut [u8; 64])
    ensures { regs.new ≡ regs_reset regs.old }
{
    let mut bytes = first_bytes();
    bytes[FIRST_SPARE_AT] = regs[FIRST_SPARE_AT];
    bytes[SECOND_SPARE_AT] = regs[SECOND_SPARE_AT];
    *regs = bytes;
}

// The registers.
pub fn write_registers(regs: &mut [u8; 64], deeds: Deeds, address: u8, byte: u8)
    ensures { regs.new ≡ regs_written deeds address byte regs.old }
{
    if deeds.resets {
        soft_reset(regs);
        return;
    }
    if deeds.stores {
        store(regs, address, byte);
    }
}

// The data channels.
pub fn write_channels(channels: Channels, deeds: Deeds) -> Channels
    ensures { result ≡ channels_written deeds channels }
{
    if deeds.resets {
        return Channels::empty();
    }
    if deeds.releases {
        return channels.release();
    }
    channels
}
