// What every crate shares: a bit of a byte, two tests at once, the 16 bits of a signed number, the least of two numbers, bytes that move. The
// laws themselves are in specs/ and proofs/.
#![tactic(auto)]

ghost use Rattle.std.specs.Prelude.{◌≡◌, min, length};
ghost use Rattle.std.specs.Int.{w16};
ghost use Rattle.std.proofs.Common.{of_z};
ghost use Rattle.laws.specs.Bytes.{between, moved_forward};
ghost use Rattle.laws.specs.Bits as bits;
ghost use Rattle.laws.specs.Choice as choice;

// The bit of a byte at a place, 0 to 7; past those every bit is 0.
pub fn bit(byte: u8, place: u8) -> bool
    ensures { result ≡ bits.bit place byte }
{
    place < 8 && (byte >> place) % 2 == 1
}

pub fn both(a: bool, b: bool) -> bool
    ensures { result ≡ choice.both a b }
{
    a && b
}

// The 16 bits of a signed number.
pub fn word_of(x: i16) -> u16
    ensures { result ≡ of_z w16 x }
{
    x.cast_unsigned()
}

pub fn least(a: usize, b: usize) -> usize
    ensures { result ≡ min a b }
{
    a.min(b)
}

// The bytes of s from one place up to another, as far as it has them, move to its front: how many they are.
pub fn move_forward(s: &mut [u8], from: usize, to: usize) -> usize
    ensures { (result ≡ length (between from to s.old)) × (s.new ≡ moved_forward from to s.old) }
{
    let end = least(to, s.len());
    let n = end - least(from, end);
    // byte by byte: the archive for C needs nothing but memcpy and memset (tests/entry), and copy_within is a memmove
    let mut i = 0;
    while i < n {
        s[i] = s[from + i];
        i += 1;
    }
    n
}
