// The FIFO of 01: frames in a flat store of bytes, the oldest first. The store is lent by its owner, and its numbers go by value. The
// work is done on a store of any length, so that chips of other depths can share it; the accelerometer's is thin over it.
#![tactic(auto)]

ghost use Rattle.std.specs.Prelude.{◌≡◌, ◌+◌, ◌-◌, ◌*◌, ◌^◌, ◌≤◌, ◌<◌, min, length, take, ltb};
ghost use Rattle.std.proofs.Math.Seq.{paste};
ghost use Rattle.laws.specs.Choice.{pick};
ghost use Rattle.laws.specs.Bytes.{zeros, first_or_zeros};
ghost use Rattle.fifo.specs.Setting.{longest_frame, size_of, depth_in, drops_in, setting_of};
ghost use Rattle.fifo.specs.Queue.{frames_reached};
ghost use Rattle.fifo.specs.Flat.{Room, flat_at, numbers_of, behind, forward, vacated, dropping};
ghost use Rattle.fifo.specs.Store.{room, fitting, no_frames, emptied, pushed_at, readout_at, readout_bytes_at, count_at, status_at};

use codes::{Axes, Mode};
use laws::{least, move_forward};

// The bytes of the accelerometer's store, and of the longest frame.
pub const ROOM: usize = 192;

pub const LONGEST_FRAME: usize = 6;

// Which frame is dropped when the FIFO is full.
#[derive(Clone, Copy)]
pub enum Drop {
    Newcomer,
    Oldest,
}

// How a FIFO is set up from one clear to the next: its depth, its drop rule and the bytes of a frame.
#[derive(Clone, Copy)]
pub struct Setting {
    pub depth: usize,
    pub drops: Drop,
    pub size: usize,
}

// The numbers beside a store: how many frames it holds, and whether one was lost. In 8 bytes, which move as one.
#[repr(C)]
#[derive(Clone, Copy)]
pub struct Fifo {
    count: u32,
    overrun: bool,
}

// The bytes of a frame.
pub fn size_of(axes: Axes) -> usize
    ensures { result ≡ size_of axes }
{
    match axes {
        Axes::All => LONGEST_FRAME,
        Axes::X => 2,
        Axes::Y => 2,
        Axes::Z => 2,
    }
}

// The depth in a mode, on a chip whose depth is full.
pub fn depth_in(full: usize, mode: Mode) -> usize
    ensures { result ≡ depth_in full mode }
{
    match mode {
        Mode::Bypass => 1,
        Mode::Fifo => full,
        Mode::Stream => full,
        Mode::Reserved => 0,
    }
}

pub fn drops_in(mode: Mode) -> Drop
    ensures { result ≡ drops_in mode }
{
    match mode {
        Mode::Bypass => Drop::Oldest,
        Mode::Fifo => Drop::Newcomer,
        Mode::Stream => Drop::Oldest,
        Mode::Reserved => Drop::Newcomer,
    }
}

pub fn setting_of(full: usize, mode: Mode, axes: Axes) -> Setting
    ensures { result ≡ setting_of full mode axes }
{
    Setting {
        depth: depth_in(full, mode),
        drops: drops_in(mode),
        size: size_of(axes),
    }
}

// The accelerometer's store with no frame in it.
pub fn no_frames() -> [u8; ROOM]
    ensures { result ≡ no_frames }
{
    [0u8; ROOM]
}

// How many frames the accelerometer's store holds on a chip of this depth.
fn depth_within(depth: usize) -> usize
    ensures { result ≡ fitting room depth }
{
    let most = least(depth, ROOM / LONGEST_FRAME);
    if most < 1 { 1 } else { most }
}

// How many frames a readout of n bytes reaches.
fn frames_reached(n: usize, size: usize) -> usize
    requires { (1 ≤ size) × (n + size < 2 ^ 64) }
    ensures { result ≡ frames_reached size n }
{
    (n + (size - 1)) / size
}

// The first size bytes of a frame are written from at on: byte by byte, since the archive for C needs nothing but memcpy and memset, and no event
// copies a store (tests/entry), as copy_from_slice did.
fn put(s: &mut [u8], at: usize, frame: &[u8], size: usize)
    requires { (at + size ≤ length s.old) × (size ≤ length frame.now) }
    ensures { s.new ≡ paste s.old at frame.now size }
{
    let mut i = 0;
    while i < size {
        s[at + i] = frame[i];
        i += 1;
    }
}

// The same. A frame of all axes has a length that the compiler knows, so that it is moved at once.
fn put_frame(s: &mut [u8], at: usize, frame: &[u8], size: usize)
    requires { (at + size ≤ length s.old) × (size ≤ length frame.now) }
    ensures { s.new ≡ paste s.old at frame.now size }
{
    if size == LONGEST_FRAME {
        put(s, at, frame, LONGEST_FRAME);
    } else {
        put(s, at, frame, size);
    }
}

// The n bytes from at on become zeros.
fn clear(s: &mut [u8], at: usize, n: usize)
    requires { at + n ≤ length s.old }
    ensures { s.new ≡ paste s.old at (zeros n) n }
{
    let mut i = 0;
    while i < n {
        s[at + i] = 0;
        i += 1;
    }
}

// The first held bytes of a store go into out, with zeros after them.
fn give(s: &[u8], held: usize, out: &mut [u8])
    requires { held ≤ length s.now }
    ensures { out.new ≡ first_or_zeros (length out.old) (take held s.now) }
{
    let n = out.len();
    let given = least(held, n);
    put(&mut *out, 0, s, given);
    clear(out, given, n - given);
}

// A frame comes to a store of held frames: behind them where the setting has room for one more, else one is dropped. Whether it fits.
fn push_frame(s: &mut [u8], held: usize, setting: Setting, frame: &[u8]) -> bool
    requires { Room held setting s.old frame.now }
    ensures { (result ≡ ltb held setting.depth)
        × (s.new ≡ pick result (behind setting.size held frame.now s.old)
        (dropping setting.drops setting.size held frame.now s.old)) }
{
    let size = setting.size;
    if held < setting.depth {
        put_frame(s, held * size, frame, size);
        return true;
    }
    let drops = setting.drops;
    match drops {
        Drop::Newcomer => {}
        Drop::Oldest => {
            move_forward(&mut *s, size, held * size);
            put_frame(s, (held - 1) * size, frame, size);
        }
    }
    false
}

// A readout of as many bytes as out has, from a store of held frames: how many are left.
fn read_frames(s: &mut [u8], held: usize, size: usize, out: &mut [u8]) -> usize
    requires { (held * size ≤ length s.old) × (1 ≤ size) × (size ≤ longest_frame) }
    ensures { (let taken = min (frames_reached size (length out.old)) held in
        (result ≡ held - taken) × (s.new ≡ vacated size held taken (forward size held taken s.old)))
        × (out.new ≡ first_or_zeros (length out.old) (take (held * size) s.old)) }
{
    let taken = least(frames_reached(out.len(), size), held);
    let left = held - taken;
    give(&s[..], held * size, out);
    move_forward(&mut *s, taken * size, held * size);
    clear(s, left * size, taken * size);
    left
}

impl Fifo {
    // Cleared: no frame, no overrun.
    pub fn empty() -> Self
        ensures { result ≡ numbers_of emptied }
    {
        Fifo {
            count: 0,
            overrun: false,
        }
    }

    // How many frames are held, on a chip of this depth.
    pub fn count(self, depth: usize) -> usize
        ensures { result ≡ count_at depth self }
    {
        least(self.count as usize, depth_within(depth))
    }

    // The byte of 0x0E.
    pub fn status(self, depth: usize) -> u8
        ensures { result ≡ status_at depth self }
    {
        let count = self.count(depth) as u8;
        if self.overrun { 128 + count } else { count }
    }

    // An accepted sample's frame comes.
    pub fn push(
        mut self,
        frames: &mut [u8; ROOM],
        depth: usize,
        mode: Mode,
        axes: Axes,
        frame: [u8; LONGEST_FRAME],
    ) -> Self
        ensures { flat_at frames.new result ≡ pushed_at depth mode axes frame (flat_at frames.old self) }
    {
        let most = depth_within(depth);
        let setting = setting_of(most, mode, axes);
        let held = least(self.count as usize, most);
        if push_frame(frames, held, setting, &frame) {
            self.count = (held + 1) as u32;
        } else {
            self.count = held as u32;
            self.overrun = true;
        }
        self
    }

    // A readout at 0x3F of as many bytes as out has.
    pub fn readout(
        mut self,
        frames: &mut [u8; ROOM],
        depth: usize,
        axes: Axes,
        out: &mut [u8],
    ) -> Self
        ensures { (flat_at frames.new result ≡ readout_at depth axes (length out.old) (flat_at frames.old self))
            × (out.new ≡ readout_bytes_at depth axes (length out.old) (flat_at frames.old self)) }
    {
        let held = self.count(depth);
        let size = size_of(axes);
        let left = read_frames(frames, held, size, out);
        self.count = left as u32;
        self
    }

    // Empties the FIFO and clears overrun, where asked; else the store and the numbers stay as they are.
    pub fn emptied_when(mut self, frames: &mut [u8; ROOM], empties: bool) -> Self
        ensures { flat_at frames.new result ≡ pick empties emptied (flat_at frames.old self) }
    {
        if empties {
            clear(frames, 0, ROOM);
            self.count = 0;
            self.overrun = false;
        }
        self
    }
}
