// A detector's alarm: its status, the marks that come with it, its sign, and the time for which the status is still held. It is set and
// cleared here alone.
#![tactic(auto)]

ghost use Rattle.std.specs.Prelude.{◌≡◌};
ghost use Rattle.alarm.specs.Alarm.{off, raised, cleared, lapse_of, marks_of};

#[repr(C)]
#[derive(Clone, Copy)]
pub struct Alarm {
    status: bool,
    mark: u8,
    negative: bool,
    // in microseconds; 0 where no time is running, as the rules of a clock name it; an `Option` would not leave the alarm its 8 bytes,
    // which move as one
    remaining: u32,
}

// What a clock does to an alarm: it stands, with less time remaining if some was running; or its time is reached, and so many
// microseconds of the clock come after that. Neither is a failure of the other, so this is no `Result`.
#[derive(Clone, Copy)]
pub enum Lapse {
    Stands(Alarm),
    Expires(u32),
}

impl Alarm {
    // As at power-up.
    pub fn off() -> Self
        ensures { result ≡ off }
    {
        Alarm {
            status: false,
            mark: 0,
            negative: false,
            remaining: 0,
        }
    }

    // The status is set, with its mark and its sign, and held for so many microseconds, or with 0 for no time; one already set stays as
    // it is.
    pub fn raise(mut self, mark: u8, negative: bool, hold: u32) -> Self
        ensures { result ≡ raised mark negative hold self }
    {
        if self.status {
            return self;
        }
        self.status = true;
        self.mark = mark;
        self.negative = negative;
        self.remaining = hold;
        self
    }

    // Mark and time clear with the status; the sign stays.
    pub fn clear(mut self) -> Self
        ensures { result ≡ cleared self }
    {
        self.status = false;
        self.mark = 0;
        self.remaining = 0;
        self
    }

    // A clock of so many microseconds comes.
    #[tactic(auto, unfolding(crate::specs::Alarm::lapse_of))]
    pub fn clock(mut self, microseconds: u32) -> Lapse
        ensures { result ≡ lapse_of microseconds self }
    {
        if self.remaining == 0 {
            return Lapse::Stands(self);
        }
        if microseconds >= self.remaining {
            return Lapse::Expires(microseconds - self.remaining);
        }
        self.remaining -= microseconds;
        Lapse::Stands(self)
    }

    pub fn is_set(self) -> bool
        ensures { result ≡ self.status }
    {
        self.status
    }

    // The mark in bits 2:0, the sign in bit 3.
    pub fn marks(self) -> u8
        ensures { result ≡ marks_of self }
    {
        let axis = self.mark % 8;
        if self.negative { axis + 8 } else { axis }
    }
}
