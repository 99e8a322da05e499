// For how long a condition has been met at each sample, and the alarm that this raises: what low-g and high-g share.
#![tactic(auto)]

ghost use Rattle.std.specs.Prelude.{◌≡◌, leb};
ghost use Rattle.spell.specs.Stopwatch.{stopped, started, longer, is_reached, going_on};
ghost use Rattle.spell.specs.Spell.{quiet, restarted, clocked, after_met, after_unmet, after_sample};

use alarm::{Alarm, Lapse};

// 0 where it is stopped, else one more than the microseconds of clock since it was started, as far as 32 bits go.
#[repr(C)]
#[derive(Clone, Copy)]
pub struct Stopwatch {
    count: u32,
}

impl Stopwatch {
    pub fn stopped() -> Self
        ensures { result ≡ stopped }
    {
        Stopwatch { count: 0 }
    }

    pub fn started() -> Self
        ensures { result ≡ started }
    {
        Stopwatch { count: 1 }
    }

    // A clock of so many microseconds comes.
    #[tactic(auto, unfolding(crate::specs::Stopwatch::longer))]
    pub fn clock(mut self, microseconds: u32) -> Self
        ensures { result ≡ longer microseconds self }
    {
        if self.count > 0 {
            self.count = self.count.saturating_add(microseconds);
        }
        self
    }

    // As it is where it runs, and started where it does not.
    pub fn going_on(self) -> Self
        ensures { result ≡ going_on self }
    {
        if self.count == 0 {
            Stopwatch::started()
        } else {
            self
        }
    }

    // Whether so much time has passed.
    pub fn has_reached(self, microseconds: u32) -> bool
        ensures { result ≡ is_reached microseconds self }
    {
        microseconds < self.count
    }
}

// What a sample shows of a condition: nothing, where it is not asked for; that it is met, with a mark and a sign; that it is not met; or
// that it is so far from met that a status which is not latched clears.
#[derive(Clone, Copy)]
pub enum Shown {
    Nothing,
    Met(u8, bool),
    Unmet,
    FarFromMet,
}

// Each of its functions that begins a run anew is given the stopwatch with which a run begins.
#[derive(Clone, Copy)]
pub struct Spell {
    pub watch: Stopwatch,
    pub alarm: Alarm,
}

impl Spell {
    // As at power-up.
    pub fn quiet(fresh: Stopwatch) -> Self
        ensures { result ≡ quiet fresh }
    {
        Spell {
            watch: fresh,
            alarm: Alarm::off(),
        }
    }

    // Status, marks and run are cleared; the run is then as given.
    #[tactic(auto, unfolding(crate::specs::Spell::restarted))]
    pub fn restart(self, fresh: Stopwatch) -> Self
        ensures { result ≡ restarted fresh self }
    {
        Spell {
            watch: fresh,
            alarm: self.alarm.clear(),
        }
    }

    // A clock of so many microseconds comes. What of it comes after an expiry goes on, in a run that has begun anew.
    #[tactic(auto, unfolding(crate::specs::Spell::clocked))]
    pub fn clock(self, fresh: Stopwatch, microseconds: u32) -> Self
        ensures { result ≡ clocked fresh microseconds self }
    {
        match self.alarm.clock(microseconds) {
            Lapse::Stands(waiting) => Spell {
                watch: self.watch.clock(microseconds),
                alarm: waiting,
            },
            Lapse::Expires(rest) => Spell {
                watch: fresh.clock(rest),
                alarm: self.alarm.clear(),
            },
        }
    }

    // A sample comes; the status is set where the condition has been met for a time.
    #[tactic(auto, unfolding(crate::specs::Spell::after_sample))]
    pub fn sample(
        self,
        fresh: Stopwatch,
        shown: Shown,
        time: u32,
        unlatched: bool,
        hold: u32,
    ) -> Self
        ensures { result ≡ after_sample fresh shown time unlatched hold self }
    {
        match shown {
            Shown::Nothing => self,
            Shown::Met(mark, negative) => self.after_met(mark, negative, time, hold),
            Shown::Unmet => self.after_unmet(fresh, false),
            Shown::FarFromMet => self.after_unmet(fresh, unlatched),
        }
    }

    #[tactic(auto, unfolding(crate::specs::Spell::after_met))]
    fn after_met(mut self, mark: u8, negative: bool, time: u32, hold: u32) -> Self
        ensures { result ≡ after_met mark negative time hold self }
    {
        self.watch = self.watch.going_on();
        if self.watch.has_reached(time) {
            self.alarm = self.alarm.raise(mark, negative, hold);
        }
        self
    }

    #[tactic(auto, unfolding(crate::specs::Spell::after_unmet))]
    fn after_unmet(mut self, fresh: Stopwatch, clears: bool) -> Self
        ensures { result ≡ after_unmet fresh clears self }
    {
        self.watch = fresh;
        if clears {
            self.alarm = self.alarm.clear();
        }
        self
    }
}
