// A detector by points in a row, as 01's any-motion is: the points of the slopes, their runs, and an alarm.
#![tactic(auto)]

ghost use Rattle.std.specs.Prelude.{◌≡◌};
ghost use Rattle.motion.specs.Detector.{quiet, with_alarm, points_needed, after_over, after_calm, after_sample, restarted, clocked};

use alarm::{Alarm, Lapse};
use slopes::{Point, Runs, Slopes, judge};

// What the registers say, of any-motion the bytes of 0x16, 0x27 and 0x28: the axes, of the points in a row the lowest two bits, and the
// threshold; whether 0x21 is non-latched, and for how many microseconds it holds a status, 0 for no time.
#[derive(Clone, Copy)]
pub struct Settings {
    pub axes: u8,
    pub points: u8,
    pub threshold: u8,
    pub unlatched: bool,
    pub hold: u32,
}

#[repr(C)]
#[derive(Clone, Copy)]
pub struct Motion {
    runs: Runs,
    alarm: Alarm,
}

impl Settings {
    // The points in a row that set or clear.
    pub fn points_needed(self) -> u8
        ensures { result ≡ points_needed self }
    {
        self.points % 4 + 1
    }
}

impl Motion {
    // As at power-up.
    pub fn quiet() -> Self
        ensures { result ≡ quiet }
    {
        Motion {
            runs: Runs::none(),
            alarm: Alarm::off(),
        }
    }

    pub fn alarm(self) -> Alarm
        ensures { result ≡ self.alarm }
    {
        self.alarm
    }

    // With another alarm.
    pub fn with_alarm(mut self, alarm: Alarm) -> Self
        ensures { result ≡ with_alarm alarm self }
    {
        self.alarm = alarm;
        self
    }

    // Status, marks and runs are cleared.
    #[tactic(auto, unfolding(crate::specs::Detector::restarted))]
    pub fn restart(mut self) -> Self
        ensures { result ≡ restarted self }
    {
        self.runs = Runs::none();
        self.alarm = self.alarm.clear();
        self
    }

    // An accepted sample comes, with its slopes.
    #[tactic(auto, unfolding(crate::specs::Detector::after_sample))]
    pub fn sample(self, settings: Settings, slopes: Option<Slopes>) -> Self
        ensures { result ≡ after_sample settings slopes self }
    {
        let n = settings.points_needed();
        match judge(settings.axes, settings.threshold, slopes) {
            Point::None => self,
            Point::Calm => self.after_calm(n, settings.unlatched),
            Point::Over(axis, falling) => self.after_over(n, axis, falling, settings.hold),
        }
    }

    // A clock of so many microseconds comes. Behind an expiry no time runs here, so what is left of the clock changes nothing more.
    #[tactic(auto, unfolding(crate::specs::Detector::clocked))]
    pub fn clock(mut self, microseconds: u32) -> Self
        ensures { result ≡ clocked microseconds self }
    {
        match self.alarm.clock(microseconds) {
            Lapse::Stands(waiting) => {
                self.alarm = waiting;
                self
            }
            Lapse::Expires(_) => self.restart(),
        }
    }

    #[tactic(auto, unfolding(crate::specs::Detector::after_over))]
    fn after_over(mut self, n: u8, axis: u8, falling: bool, hold: u32) -> Self
        ensures { result ≡ after_over n axis falling hold self }
    {
        self.runs = self.runs.after_over(n);
        if self.runs.reached_over(n) {
            self.alarm = self.alarm.raise(axis, falling, hold);
        }
        self
    }

    #[tactic(auto, unfolding(crate::specs::Detector::after_calm))]
    fn after_calm(mut self, n: u8, unlatched: bool) -> Self
        ensures { result ≡ after_calm n unlatched self }
    {
        self.runs = self.runs.after_calm(n);
        if unlatched && self.runs.reached_calm(n) {
            self.alarm = self.alarm.clear();
        }
        self
    }
}
