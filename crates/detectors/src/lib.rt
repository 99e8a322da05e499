// All detectors together, with the previous sample that the slope detectors share: what a sample, a clock and a write do to them.
#![tactic(auto)]

ghost use Rattle.std.specs.Prelude.{◌≡◌};
ghost use Rattle.detectors.specs.Detectors as detectors;

use alarm::Alarm;
use codes::{
    AXES_AT, LATCH_AT, POINTS_AT, SLOW_AT, SLOW_THRESHOLD_AT, THRESHOLD_AT, hold_of, is_unlatched,
    latch_of, wait_code,
};
use gravity::Gravity;
use motion::{Motion, Settings};
use registers::Deeds;
use slopes::{Previous, no_axis};
use slow::Slow;

#[repr(C)]
#[derive(Clone, Copy)]
pub struct Detectors {
    previous: Previous,
    motion: Motion,
    gravity: Gravity,
    slow: Slow,
}

// The alarms of low-g, of high-g, of any-motion, and of slow motion and no-motion.
#[derive(Clone, Copy)]
pub struct Alarms {
    pub low: Alarm,
    pub high: Alarm,
    pub motion: Alarm,
    pub slow: Alarm,
}

// What any-motion goes by.
fn motion_settings(regs: &[u8; 64]) -> Settings
    ensures { result ≡ detectors.motion_settings regs.now }
{
    let latch = latch_of(regs[LATCH_AT]);
    Settings {
        axes: regs[AXES_AT],
        points: regs[POINTS_AT],
        threshold: regs[THRESHOLD_AT],
        unlatched: is_unlatched(latch),
        hold: hold_of(latch),
    }
}

// Any-motion after an accepted sample. While no axis is enabled the sample gives no point, and no slope is reckoned.
fn motion_sampled(
    motion: Motion,
    previous: Previous,
    regs: &[u8; 64],
    x: i16,
    y: i16,
    z: i16,
) -> Motion
    ensures { result ≡ detectors.motion_sampled regs.now previous x y z motion }
{
    if no_axis(regs[AXES_AT]) {
        return motion;
    }
    let slopes = previous.slopes_to(x, y, z);
    motion.sample(motion_settings(regs), slopes)
}

// What slow motion and no-motion go by. The names of the fields say which byte is which; one function for both would be handed three bytes
// in a row.
fn slow_settings(regs: &[u8; 64]) -> Settings
    ensures { result ≡ detectors.slow_settings regs.now }
{
    let latch = latch_of(regs[LATCH_AT]);
    Settings {
        axes: regs[SLOW_AT],
        points: wait_code(regs[POINTS_AT]),
        threshold: regs[SLOW_THRESHOLD_AT],
        unlatched: is_unlatched(latch),
        hold: hold_of(latch),
    }
}

// Slow motion and no-motion after an accepted sample, as any-motion. One function for both would be a trait with a law (while no axis is
// enabled a sample changes nothing) and two impls: no plainer than the two.
fn slow_sampled(slow: Slow, previous: Previous, regs: &[u8; 64], x: i16, y: i16, z: i16) -> Slow
    ensures { result ≡ detectors.slow_sampled regs.now previous x y z slow }
{
    if no_axis(regs[SLOW_AT]) {
        return slow;
    }
    let slopes = previous.slopes_to(x, y, z);
    slow.sample(slow_settings(regs), slopes)
}

impl Detectors {
    // As at power-up.
    pub fn quiet() -> Self
        ensures { result ≡ detectors.all_quiet }
    {
        Detectors {
            previous: Previous::none(),
            motion: Motion::quiet(),
            gravity: Gravity::quiet(),
            slow: Slow::quiet(),
        }
    }

    // The alarms: what shows of the detectors.
    pub fn alarms(self) -> Alarms
        ensures { result ≡ detectors.alarms_of self }
    {
        Alarms {
            low: self.gravity.low_alarm(),
            high: self.gravity.high_alarm(),
            motion: self.motion.alarm(),
            slow: self.slow.alarm(),
        }
    }

    // An accepted sample comes.
    #[tactic(auto, unfolding(crate::specs::Detectors::detectors_sampled))]
    pub fn sample(mut self, regs: &[u8; 64], x: i16, y: i16, z: i16) -> Self
        ensures { result ≡ detectors.detectors_sampled regs.now x y z self }
    {
        self.motion = motion_sampled(self.motion, self.previous, regs, x, y, z);
        self.gravity = self.gravity.sample(regs, x, y, z);
        self.slow = slow_sampled(self.slow, self.previous, regs, x, y, z);
        self.previous = Previous::remember(x, y, z);
        self
    }

    // A clock of so many microseconds comes.
    #[tactic(auto, unfolding(crate::specs::Detectors::detectors_clocked))]
    pub fn clock(mut self, microseconds: u32) -> Self
        ensures { result ≡ detectors.detectors_clocked microseconds self }
    {
        self.motion = self.motion.clock(microseconds);
        self.gravity = self.gravity.clock(microseconds);
        self.slow = self.slow.clock(microseconds);
        self
    }

    // A write was done.
    #[tactic(auto, unfolding(crate::specs::Detectors::detectors_written))]
    pub fn after_write(mut self, deeds: Deeds) -> Self
        ensures { result ≡ detectors.detectors_written deeds self }
    {
        if deeds.resets {
            return Detectors::quiet();
        }
        if deeds.forgets {
            self.previous = self.previous.forget();
        }
        if deeds.restarts.motion {
            self.motion = self.motion.restart();
        }
        if deeds.restarts.gravity {
            self.gravity = self.gravity.restart();
        }
        if deeds.restarts.slow {
            self.slow = self.slow.restart();
        }
        self
    }
}
