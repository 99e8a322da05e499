// Slow motion and no-motion: one detector, in which bit 3 of 0x18 chooses. Slow motion counts points as any-motion does; no-motion waits by the
// clock for calm.
#![tactic(auto)]

ghost use Rattle.std.specs.Prelude.{◌≡◌};
ghost use Rattle.slow.specs.Slow.{quiet, spell_of, with_spell, restarted, clocked, calm_shown, no_motion_sampled, is_no_motion, sampled};

use alarm::Alarm;
use codes::wait_of;
use laws::bit;
use motion::{Motion, Settings};
use slopes::{Point, Slopes, judge};
use spell::{Shown, Spell, Stopwatch};

// Slow motion's runs, the alarm of both, and the clock since the last over point, restart or expiry. Of its settings, `axes` is the byte of
// 0x18, `threshold` that of 0x29 and `points` the code in bits 7:2 of 0x27, whose lowest two bits are slow motion's.
#[repr(C)]
#[derive(Clone, Copy)]
pub struct Slow {
    motion: Motion,
    watch: Stopwatch,
}

// What a point shows of calm, where no-motion waits for so many microseconds: nothing where there is no point, or no time to wait for.
fn calm_shown(point: Point, wait: u32) -> Shown
    ensures { result ≡ calm_shown point wait }
{
    match point {
        Point::None => Shown::Nothing,
        Point::Calm => {
            if wait == 0 {
                return Shown::Nothing;
            }
            Shown::Met(0, false)
        }
        Point::Over(_, _) => Shown::FarFromMet,
    }
}

// Whether the detector waits for calm.
fn is_no_motion(axes: u8) -> bool
    ensures { result ≡ is_no_motion axes }
{
    bit(axes, 3)
}

impl Slow {
    // As at power-up.
    pub fn quiet() -> Self
        ensures { result ≡ quiet }
    {
        Slow {
            motion: Motion::quiet(),
            watch: Stopwatch::started(),
        }
    }

    pub fn alarm(self) -> Alarm
        ensures { result ≡ self.motion.alarm }
    {
        self.motion.alarm()
    }

    // No-motion's clock, with the alarm.
    fn spell(self) -> Spell
        ensures { result ≡ spell_of self }
    {
        Spell {
            watch: self.watch,
            alarm: self.alarm(),
        }
    }

    // With another clock and alarm.
    fn with_spell(mut self, spell: Spell) -> Self
        ensures { result ≡ with_spell spell self }
    {
        self.motion = self.motion.with_alarm(spell.alarm);
        self.watch = spell.watch;
        self
    }

    // Status and runs are cleared, and the waiting starts.
    #[tactic(auto, unfolding(crate::specs::Slow::restarted))]
    pub fn restart(mut self) -> Self
        ensures { result ≡ restarted self }
    {
        self.motion = self.motion.restart();
        self.watch = Stopwatch::started();
        self
    }

    // A clock of so many microseconds comes. What of it comes after an expiry counts for the waiting that starts there.
    #[tactic(auto, unfolding(crate::specs::Slow::clocked))]
    pub fn clock(mut self, microseconds: u32) -> Self
        ensures { result ≡ clocked microseconds self }
    {
        let later = self.spell().clock(Stopwatch::started(), microseconds);
        self.motion = self.motion.clock(microseconds);
        self.watch = later.watch;
        self
    }

    // No-motion at an accepted sample, with its slopes.
    #[tactic(auto, unfolding(crate::specs::Slow::no_motion_sampled))]
    fn no_motion_sample(self, settings: Settings, slopes: Option<Slopes>) -> Self
        ensures { result ≡ no_motion_sampled settings slopes self }
    {
        let wait = wait_of(settings.points);
        let point = judge(settings.axes, settings.threshold, slopes);
        self.with_spell(
            self.spell().sample(
                Stopwatch::started(),
                calm_shown(point, wait),
                wait,
                settings.unlatched,
                settings.hold,
            ),
        )
    }

    // An accepted sample comes, with its slopes.
    #[tactic(auto, unfolding(crate::specs::Slow::sampled))]
    pub fn sample(mut self, settings: Settings, slopes: Option<Slopes>) -> Self
        ensures { result ≡ sampled settings slopes self }
    {
        if is_no_motion(settings.axes) {
            return self.no_motion_sample(settings, slopes);
        }
        self.motion = self.motion.sample(settings, slopes);
        self
    }
}
