// Burst reads below 0x3F, over what they need of the device.
ghost use Rattle.std.specs.Prelude.{◌≡◌, length};
ghost use Rattle.device.specs.Read.{is_data, byte_from, channels_read, bytes_from};

use crate::showing::{Inside, shown_byte};
use channels::Channels;

// Whether an address is a data register.
fn is_data(at: usize) -> bool
    ensures { result ≡ is_data at }
{
    matches!(at, 0x02..=0x07)
}

// The byte of an address.
#[tactic(auto, unfolding(crate::specs::Read::byte_from))]
fn byte_from(channels: Channels, inside: Inside, regs: &[u8; 64], at: usize) -> u8
    ensures { result ≡ byte_from channels inside regs.now at }
{
    if is_data(at) {
        channels.byte(at)
    } else {
        shown_byte(inside, regs, at)
    }
}

// Single reads in rising address order.
pub fn burst(
    channels: Channels,
    locks: bool,
    inside: Inside,
    regs: &[u8; 64],
    address: u8,
    buffer: &mut [u8],
) -> Channels
    ensures { (result ≡ channels_read locks channels address (length buffer.old))
        × (buffer.new ≡ bytes_from locks channels inside regs.now address (length buffer.old)) }
{
    let first = address as usize;
    let mut now = channels;
    for (i, byte) in buffer.iter_mut().enumerate() {
        let at = first + i;
        *byte = byte_from(now, inside, regs, at);
        now = now.after_read(locks, at);
    }
    now
}
