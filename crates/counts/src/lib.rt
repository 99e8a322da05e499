// What is known of a device's events, as a few numbers: samples accepted, taken and lost, frames held when the FIFO was cleared, events
// refused, and readouts; the range and the FIFO's mode in force, and whether each is in doubt; and why a stretch of events ends. It rests
// on no device: who steps it gives what changed.
#![tactic(auto)]

ghost use Rattle.std.specs.Prelude.{◌≡◌};
ghost use Rattle.counts.specs.Counts.{no_counts, no_doubts, first_account, left, with_readouts, differences, account_moved, arrived, ends, is_same_range, is_same_mode, back_of};

use codes::{Mode, Range};

// How many, since power-up: samples accepted, frames taken, samples lost, frames held when the FIFO was cleared, events refused, and
// readouts. Each wraps as the record number does.
#[derive(Clone, Copy)]
pub struct Counts {
    pub accepted: u64,
    pub taken: u64,
    pub lost: u64,
    pub cleared: u64,
    pub refused: u64,
    pub readouts: u64,
}

// What a register sets is in doubt by the refused write to it of this byte, in the record of this number.
#[derive(Clone, Copy, PartialEq, Eq)]
pub struct Doubt {
    pub byte: u8,
    pub number: u64,
}

// The doubt of the range, by 0x0F, and of the FIFO's mode, by 0x3E, where there is one.
#[derive(Clone, Copy)]
pub struct Doubts {
    pub range: Option<Doubt>,
    pub mode: Option<Doubt>,
}

// What a device shows behind an event: the range and the mode in force, and the frames held.
#[derive(Clone, Copy)]
pub struct Shown {
    pub range: Range,
    pub mode: Mode,
    pub held: u64,
}

// Why a stretch of events ends with this one.
#[derive(Clone, Copy, PartialEq, Eq)]
pub enum Why {
    Readout,
    Range,
    Refused,
    Reset,
}

// What is known after so many events: the counts, the range and the mode in force and their doubts, and the frames held. What is shown
// stands here field by field: each law of an account names its range, its mode or its frames, and none all three.
#[derive(Clone, Copy)]
pub struct Account {
    pub number: u64,
    pub counts: Counts,
    pub doubts: Doubts,
    pub range: Range,
    pub mode: Mode,
    pub held: u64,
}

// Whether a stretch ends.
pub fn ends_stretch(why: Option<Why>) -> bool
    ensures { result ≡ ends why }
{
    why.is_some()
}

impl Counts {
    pub fn none() -> Self
        ensures { result ≡ no_counts }
    {
        Counts {
            accepted: 0,
            taken: 0,
            lost: 0,
            cleared: 0,
            refused: 0,
            readouts: 0,
        }
    }

    // What was counted since an earlier count.
    pub fn since(self, earlier: Counts) -> Self
        ensures { result ≡ differences earlier self }
    {
        Counts {
            accepted: self.accepted.wrapping_sub(earlier.accepted),
            taken: self.taken.wrapping_sub(earlier.taken),
            lost: self.lost.wrapping_sub(earlier.lost),
            cleared: self.cleared.wrapping_sub(earlier.cleared),
            refused: self.refused.wrapping_sub(earlier.refused),
            readouts: self.readouts.wrapping_sub(earlier.readouts),
        }
    }

    // With so many more taken, cleared and refused.
    pub fn with_left(self, taken: u64, cleared: u64, refused: u64) -> Self
        ensures { result ≡ left self taken cleared refused }
    {
        Counts {
            taken: self.taken.wrapping_add(taken),
            cleared: self.cleared.wrapping_add(cleared),
            refused: self.refused.wrapping_add(refused),
            ..self
        }
    }

    // With so many readouts more.
    pub fn with_readouts(self, readouts: u64) -> Self
        ensures { result ≡ with_readouts self readouts }
    {
        Counts {
            readouts: self.readouts.wrapping_add(readouts),
            ..self
        }
    }

    // With one sample more, and so many lost by it.
    pub fn with_arrived(self, lost: u64) -> Self
        ensures { result ≡ arrived self lost }
    {
        Counts {
            accepted: self.accepted.wrapping_add(1),
            lost: self.lost.wrapping_add(lost),
            ..self
        }
    }
}

impl Doubts {
    pub fn none() -> Self
        ensures { result ≡ no_doubts }
    {
        Doubts {
            range: None,
            mode: None,
        }
    }
}

impl Account {
    // At power-up.
    pub fn first() -> Self
        ensures { result ≡ first_account }
    {
        Account {
            number: 0,
            counts: Counts::none(),
            doubts: Doubts::none(),
            range: Range::G2,
            mode: Mode::Bypass,
            held: 0,
        }
    }

    // One event further.
    pub fn moved(self, counts: Counts, doubts: Doubts, shown: Shown) -> Self
        ensures { result ≡ account_moved self counts doubts shown.range shown.mode shown.held }
    {
        Account {
            number: self.number.wrapping_add(1),
            counts,
            doubts,
            range: shown.range,
            mode: shown.mode,
            held: shown.held,
        }
    }

    // Whether the range, and what is doubted of it, is the same in both.
    pub fn has_range_of(self, other: Account) -> bool
        ensures { result ≡ is_same_range self other }
    {
        self.range == other.range && self.doubts.range == other.doubts.range
    }

    // Whether the mode, and what is doubted of it, is.
    pub fn has_mode_of(self, other: Account) -> bool
        ensures { result ≡ is_same_mode self other }
    {
        self.mode == other.mode && self.doubts.mode == other.doubts.mode
    }
}

// ---- which sample is lost
// Of the sample that an arrival lost, how many accepted samples it came before the newcomer, in this mode and with so many held before it:
// 0 is the newcomer itself, and 0 also where none was lost.
pub fn back_of(lost: u64, mode: Mode, held: u64) -> u64
    ensures { result ≡ back_of lost mode held }
{
    if lost == 0 {
        return 0;
    }
    match mode {
        Mode::Bypass | Mode::Stream => held,
        Mode::Fifo | Mode::Reserved => 0,
    }
}
