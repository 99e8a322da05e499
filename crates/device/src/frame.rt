// A sample's frame.
ghost use Rattle.std.specs.Prelude.{◌≡◌};
ghost use Rattle.device.specs.Sample.{one_axis, all_axes, frame_of};

use channels::{Codes, lsb_of, msb_of};
use codes::Axes;
use fifo::LONGEST_FRAME;

// The frame of one axis, with zeros behind it.
fn one_axis(code: u32) -> [u8; LONGEST_FRAME]
    ensures { result ≡ one_axis code }
{
    [lsb_of(true, code), msb_of(code), 0, 0, 0, 0]
}

fn all_axes(codes: Codes) -> [u8; LONGEST_FRAME]
    ensures { result ≡ all_axes codes }
{
    [
        lsb_of(true, codes.x),
        msb_of(codes.x),
        lsb_of(true, codes.y),
        msb_of(codes.y),
        lsb_of(true, codes.z),
        msb_of(codes.z),
    ]
}

// The selected axes, LSB then MSB.
pub fn frame_of(axes: Axes, codes: Codes) -> [u8; LONGEST_FRAME]
    ensures { result ≡ frame_of axes codes }
{
    match axes {
        Axes::All => all_axes(codes),
        Axes::X => one_axis(codes.x),
        Axes::Y => one_axis(codes.y),
        Axes::Z => one_axis(codes.z),
    }
}
