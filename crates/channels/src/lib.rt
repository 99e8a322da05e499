// The data channels of 01: samples of twelve bits, their new-data bits and locks.
#![tactic(auto)]

ghost use Rattle.std.specs.Prelude.{◌≡◌};
ghost use Rattle.channels.specs.Codes.{in_range, code, codes, lsb_of, msb_of};
ghost use Rattle.channels.specs.Channels.{no_sample, with_sample, lsb, msb, after_lsb, unlocked, no_samples, sampled, released, byte_at, after_read};

// The codes of one sample's three axes.
#[derive(Clone, Copy)]
pub struct Codes {
    pub x: u32,
    pub y: u32,
    pub z: u32,
}

// One axis: the present sample's code, whether it is new, and the upper byte that a lock holds. The code takes 32 bits, so that a channel
// has 8 bytes and moves as one number; lock and byte stand apart, since the theorem on the data channels speaks of each
// (`rules/proofs/Channels: Shows`).
#[repr(C)]
#[derive(Clone, Copy)]
pub struct Channel {
    code: u32,
    fresh: bool,
    locked: bool,
    held: u8,
}

#[repr(C)]
#[derive(Clone, Copy)]
pub struct Channels {
    x: Channel,
    y: Channel,
    z: Channel,
}

// Whether a sample has twelve bits.
pub fn in_range(sample: i16) -> bool
    ensures { result ≡ in_range sample }
{
    -2048 <= sample && sample < 2048
}

// The low twelve bits of a sample.
pub fn code_of(sample: i16) -> u32
    ensures { result ≡ code sample }
{
    sample.cast_unsigned() as u32 % 4096
}

pub fn codes_of(x: i16, y: i16, z: i16) -> Codes
    ensures { result ≡ codes x y z }
{
    Codes {
        x: code_of(x),
        y: code_of(y),
        z: code_of(z),
    }
}

// The LSB register's byte.
pub fn lsb_of(fresh: bool, code: u32) -> u8
    ensures { result ≡ lsb_of fresh code }
{
    let low = (code % 16 * 16) as u8;
    if fresh { low + 1 } else { low }
}

// The MSB register's byte.
pub fn msb_of(code: u32) -> u8
    ensures { result ≡ msb_of code }
{
    (code / 16 % 256) as u8
}

impl Channel {
    pub fn empty() -> Self
        ensures { result ≡ no_sample }
    {
        Channel {
            code: 0,
            fresh: false,
            locked: false,
            held: 0,
        }
    }

    pub fn sample(mut self, code: u32) -> Self
        ensures { result ≡ with_sample code self }
    {
        self.code = code;
        self.fresh = true;
        self
    }

    pub fn lsb(self) -> u8
        ensures { result ≡ lsb self }
    {
        lsb_of(self.fresh, self.code)
    }

    pub fn msb(self) -> u8
        ensures { result ≡ msb self }
    {
        if self.locked {
            self.held
        } else {
            msb_of(self.code)
        }
    }

    // After a read of the LSB register.
    pub fn after_lsb(mut self, locks: bool) -> Self
        ensures { result ≡ after_lsb locks self }
    {
        self.fresh = false;
        if locks {
            self.held = msb_of(self.code);
            self.locked = true;
        }
        self
    }

    pub fn unlock(mut self) -> Self
        ensures { result ≡ unlocked self }
    {
        self.locked = false;
        self
    }
}

impl Channels {
    pub fn empty() -> Self
        ensures { result ≡ no_samples }
    {
        Channels {
            x: Channel::empty(),
            y: Channel::empty(),
            z: Channel::empty(),
        }
    }

    // An accepted sample comes. Each channel is taken out first, here and below: it has 8 bytes and moves as one number.
    pub fn sample(mut self, codes: Codes) -> Self
        ensures { result ≡ sampled codes self }
    {
        let x = self.x;
        let y = self.y;
        let z = self.z;
        self.x = x.sample(codes.x);
        self.y = y.sample(codes.y);
        self.z = z.sample(codes.z);
        self
    }

    // All locks are released.
    pub fn release(mut self) -> Self
        ensures { result ≡ released self }
    {
        let x = self.x;
        let y = self.y;
        let z = self.z;
        self.x = x.unlock();
        self.y = y.unlock();
        self.z = z.unlock();
        self
    }

    // The byte that a read of 0x02 to 0x07 gives.
    pub fn byte(self, address: usize) -> u8
        ensures { result ≡ byte_at self address }
    {
        let x = self.x;
        let y = self.y;
        let z = self.z;
        match address {
            0x02 => x.lsb(),
            0x03 => x.msb(),
            0x04 => y.lsb(),
            0x05 => y.msb(),
            0x06 => z.lsb(),
            0x07 => z.msb(),
            _ => 0,
        }
    }

    // After a read of an address.
    pub fn after_read(mut self, locks: bool, address: usize) -> Self
        ensures { result ≡ after_read locks address self }
    {
        let x = self.x;
        let y = self.y;
        let z = self.z;
        match address {
            0x02 => self.x = x.after_lsb(locks),
            0x03 => self.x = x.unlock(),
            0x04 => self.y = y.after_lsb(locks),
            0x05 => self.y = y.unlock(),
            0x06 => self.z = z.after_lsb(locks),
            0x07 => self.z = z.unlock(),
            _ => {}
        }
        self
    }
}
