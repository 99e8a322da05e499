// Low-g and high-g: what a sample shows of each, by the bytes that the registers hold, and for how long it has shown it.
#![tactic(auto)]

ghost use Rattle.std.specs.Prelude.{◌≡◌, ◌*◌, nat_abs};
ghost use Rattle.gravity.specs.Sizes.{size_and_sign, time_of};
ghost use Rattle.gravity.specs.Low.{are_below, shown_of, judged_low, low_shown};
ghost use Rattle.gravity.specs.High.{above_on, some_above, judged_high, clears_to, high_shown};
ghost use Rattle.gravity.specs.Gravity.{of_spells, low_spell, high_spell, both_quiet, both_restarted, both_clocked, low_sampled, high_sampled, both_sampled};

use alarm::Alarm;
use codes::{
    ENABLES_AT, HIGH_DELAY_AT, HIGH_THRESHOLD_AT, HYSTERESES_AT, LATCH_AT, LOW_DELAY_AT,
    LOW_THRESHOLD_AT, RANGE_AT, Range, hold_of, is_reserved_range, is_unlatched, latch_of,
    range_of,
};
use laws::bit;
use slopes::{Slope, no_axis, slope_between};
use spell::{Shown, Spell, Stopwatch};

// The stopwatches of low-g and of high-g; both go as one number of 64 bits.
#[repr(C)]
#[derive(Clone, Copy)]
pub struct Watches {
    low: Stopwatch,
    high: Stopwatch,
}

// Low-g and high-g, each of which is a spell: a stopwatch and an alarm.
#[repr(C)]
#[derive(Clone, Copy)]
pub struct Gravity {
    watches: Watches,
    low: Alarm,
    high: Alarm,
}

// The size of a value, and whether it is negative: those of the slope to it from 0.
fn size_and_sign(value: i16) -> Slope
    ensures { result ≡ size_and_sign value }
{
    slope_between(0, value)
}

// So many times the size of a value.
fn times_size(factor: u8, value: i16) -> u32
    ensures { result ≡ factor * nat_abs value }
{
    factor as u32 * size_and_sign(value).size
}

// The time of a delay, in microseconds.
fn time_of(delay: u8) -> u32
    ensures { result ≡ time_of delay }
{
    (delay as u32 + 1) * 2000
}

// Whether each of three sizes, or where they are summed their sum, is below a limit.
#[tactic(auto, unfolding(crate::specs::Low::are_below))]
fn are_below(summed: bool, limit: u32, x: u32, y: u32, z: u32) -> bool
    ensures { result ≡ are_below summed limit x y z }
{
    if summed {
        return x as u64 + y as u64 + (z as u64) < limit as u64;
    }
    x < limit && y < limit && z < limit
}

// What a sample shows of low-g, by whether it is below the threshold, and below that and the hysteresis.
fn shown_of(below: bool, within: bool) -> Shown
    ensures { result ≡ shown_of below within }
{
    if below {
        Shown::Met(0, false)
    } else if within {
        Shown::Unmet
    } else {
        Shown::FarFromMet
    }
}

// What a sample shows of low-g where a count is so many 2 g counts.
#[tactic(auto, unfolding(crate::specs::Low::judged_low))]
fn judged_low(factor: u8, threshold: u8, modes: u8, x: i16, y: i16, z: i16) -> Shown
    ensures { result ≡ judged_low factor threshold modes x y z }
{
    let on_x = times_size(factor, x);
    let on_y = times_size(factor, y);
    let on_z = times_size(factor, z);
    let limit = 8 * threshold as u32;
    let band = 128 * (modes % 4) as u32;
    let summed = bit(modes, 2);
    let below = are_below(summed, limit, on_x, on_y, on_z);
    let within = are_below(summed, limit + band, on_x, on_y, on_z);
    shown_of(below, within)
}

// What a sample shows of low-g, by the bytes of 0x0F, 0x23 and 0x24: in an unknown range nothing.
#[tactic(auto, unfolding(crate::specs::Low::low_shown))]
fn low_shown(code: u8, threshold: u8, modes: u8, x: i16, y: i16, z: i16) -> Shown
    ensures { result ≡ low_shown code threshold modes x y z }
{
    match range_of(code) {
        Range::G2 => judged_low(1, threshold, modes, x, y, z),
        Range::G4 => judged_low(2, threshold, modes, x, y, z),
        Range::G8 => judged_low(4, threshold, modes, x, y, z),
        Range::G16 => judged_low(8, threshold, modes, x, y, z),
        Range::Reserved => Shown::Nothing,
    }
}

// Whether the axis at a place is enabled and above a limit.
fn above_on(place: u8, axes: u8, limit: u32, on: Slope) -> bool
    ensures { result ≡ above_on place axes limit on }
{
    bit(axes, place) && limit < on.size
}

// Whether some enabled axis is above a limit.
fn some_above(axes: u8, limit: u32, x: Slope, y: Slope, z: Slope) -> bool
    ensures { result ≡ some_above axes limit x y z }
{
    above_on(0, axes, limit, x) || above_on(1, axes, limit, y) || above_on(2, axes, limit, z)
}

// What a sample shows of high-g: the first enabled axis above the limit, or whether one is above what it clears to. `slopes` picks the first
// axis of a point alike; shared, it would be an `Option` of a mark and a sign that both take apart again, which is no plainer.
#[tactic(auto, unfolding(crate::specs::High::judged_high))]
fn judged_high(axes: u8, limit: u32, to: u32, x: Slope, y: Slope, z: Slope) -> Shown
    ensures { result ≡ judged_high axes limit to x y z }
{
    if above_on(0, axes, limit, x) {
        return Shown::Met(1, x.falling);
    }
    if above_on(1, axes, limit, y) {
        return Shown::Met(2, y.falling);
    }
    if above_on(2, axes, limit, z) {
        return Shown::Met(4, z.falling);
    }
    if some_above(axes, to, x, y, z) {
        Shown::Unmet
    } else {
        Shown::FarFromMet
    }
}

// What high-g clears to, never less than 0.
fn clears_to(limit: u32, modes: u8) -> u32
    ensures { result ≡ clears_to limit modes }
{
    limit.saturating_sub(128 * (modes / 64) as u32)
}

// What a sample shows of high-g, by the bytes of 0x17, 0x0F, 0x26 and 0x24: in an unknown range nothing.
#[tactic(auto, unfolding(crate::specs::High::high_shown))]
fn high_shown(axes: u8, code: u8, threshold: u8, modes: u8, x: i16, y: i16, z: i16) -> Shown
    ensures { result ≡ high_shown axes code threshold modes x y z }
{
    if is_reserved_range(range_of(code)) {
        return Shown::Nothing;
    }
    let limit = 8 * threshold as u32;
    let to = clears_to(limit, modes);
    judged_high(
        axes,
        limit,
        to,
        size_and_sign(x),
        size_and_sign(y),
        size_and_sign(z),
    )
}

// Low-g after an accepted sample.
#[tactic(auto, unfolding(crate::specs::Gravity::low_sampled))]
fn low_sampled(low: Spell, regs: &[u8; 64], x: i16, y: i16, z: i16) -> Spell
    ensures { result ≡ low_sampled regs.now x y z low }
{
    if bit(regs[ENABLES_AT], 3) {
        let shown = low_shown(
            regs[RANGE_AT],
            regs[LOW_THRESHOLD_AT],
            regs[HYSTERESES_AT],
            x,
            y,
            z,
        );
        let latch = latch_of(regs[LATCH_AT]);
        let time = time_of(regs[LOW_DELAY_AT]);
        return low.sample(
            Stopwatch::stopped(),
            shown,
            time,
            is_unlatched(latch),
            hold_of(latch),
        );
    }
    low
}

// High-g after an accepted sample. It differs from low-g in the enable, the bytes and the delay, which is most of it: one function for both
// would take them all, and is no plainer.
#[tactic(auto, unfolding(crate::specs::Gravity::high_sampled))]
fn high_sampled(high: Spell, regs: &[u8; 64], x: i16, y: i16, z: i16) -> Spell
    ensures { result ≡ high_sampled regs.now x y z high }
{
    let enables = regs[ENABLES_AT];
    if no_axis(enables) {
        return high;
    }
    let shown = high_shown(
        enables,
        regs[RANGE_AT],
        regs[HIGH_THRESHOLD_AT],
        regs[HYSTERESES_AT],
        x,
        y,
        z,
    );
    let latch = latch_of(regs[LATCH_AT]);
    let time = time_of(regs[HIGH_DELAY_AT]);
    high.sample(
        Stopwatch::stopped(),
        shown,
        time,
        is_unlatched(latch),
        hold_of(latch),
    )
}

impl Gravity {
    // As at power-up.
    pub fn quiet() -> Self
        ensures { result ≡ both_quiet }
    {
        Gravity::of_spells(
            Spell::quiet(Stopwatch::stopped()),
            Spell::quiet(Stopwatch::stopped()),
        )
    }

    fn of_spells(low: Spell, high: Spell) -> Self
        ensures { result ≡ of_spells low high }
    {
        Gravity {
            watches: Watches {
                low: low.watch,
                high: high.watch,
            },
            low: low.alarm,
            high: high.alarm,
        }
    }

    fn low_spell(self) -> Spell
        ensures { result ≡ low_spell self }
    {
        Spell {
            watch: self.watches.low,
            alarm: self.low,
        }
    }

    fn high_spell(self) -> Spell
        ensures { result ≡ high_spell self }
    {
        Spell {
            watch: self.watches.high,
            alarm: self.high,
        }
    }

    // Low-g's alarm.
    pub fn low_alarm(self) -> Alarm
        ensures { result ≡ self.low }
    {
        self.low
    }

    // High-g's alarm.
    pub fn high_alarm(self) -> Alarm
        ensures { result ≡ self.high }
    {
        self.high
    }

    // Status, marks and runs are cleared.
    #[tactic(auto, unfolding(crate::specs::Gravity::both_restarted))]
    pub fn restart(self) -> Self
        ensures { result ≡ both_restarted self }
    {
        Gravity::of_spells(
            self.low_spell().restart(Stopwatch::stopped()),
            self.high_spell().restart(Stopwatch::stopped()),
        )
    }

    // A clock of so many microseconds comes.
    #[tactic(auto, unfolding(crate::specs::Gravity::both_clocked))]
    pub fn clock(self, microseconds: u32) -> Self
        ensures { result ≡ both_clocked microseconds self }
    {
        Gravity::of_spells(
            self.low_spell().clock(Stopwatch::stopped(), microseconds),
            self.high_spell().clock(Stopwatch::stopped(), microseconds),
        )
    }

    // An accepted sample comes. Where neither is enabled nothing is asked of it.
    #[tactic(auto, unfolding(crate::specs::Gravity::both_sampled))]
    pub fn sample(self, regs: &[u8; 64], x: i16, y: i16, z: i16) -> Self
        ensures { result ≡ both_sampled regs.now x y z self }
    {
        if regs[ENABLES_AT] % 16 == 0 {
            return self;
        }
        Gravity::of_spells(
            low_sampled(self.low_spell(), regs, x, y, z),
            high_sampled(self.high_spell(), regs, x, y, z),
        )
    }
}
