// Q-8: what the samples and the clocks of a log add to its sheet, one at a time. Once a total would not fit that is kept in mind, and the log has
// no sheet: signed sums may come back, so each event is looked at.
#![tactic(auto)]

ghost use Rattle.std.specs.Prelude.{◌≡◌};
ghost use Rattle.sheets.specs.Sheets.{kept, axes_joined};
ghost use Rattle.tally.specs.Tally.{no_sums, one_tally, one_sample, ranges_sampled, sums_clocked, sums_sampled, fitted_with, so_far};

use codes::Range;
use sheets::{ByAxis, ByRange, Extremes, Tally, TooLarge, join_counts};

// The clock and the tallies of what came.
#[derive(Clone, Copy)]
pub struct Totals {
    pub clock: u64,
    pub ranges: ByRange,
}

// The totals so far, each without what would not have fitted, and whether every one has fitted at every event.
#[derive(Clone, Copy)]
pub struct Sums {
    pub totals: Totals,
    pub fitted: Result<(), TooLarge>,
}

// The tally of one stored count.
fn one_tally(count: i16) -> Tally
    ensures { result ≡ one_tally count }
{
    Tally {
        extremes: Some(Extremes {
            smallest: count,
            largest: count,
        }),
        sum: count as i64,
    }
}

// The tallies of one stored sample: all three axes, whatever 0x3E selects.
fn one_sample(x: i16, y: i16, z: i16) -> ByAxis
    ensures { result ≡ one_sample x y z }
{
    ByAxis {
        x: one_tally(x),
        y: one_tally(y),
        z: one_tally(z),
    }
}

// With a sample more in one row, where it fits.
fn add(row: &mut ByAxis, sample: ByAxis) -> Result<(), TooLarge>
    ensures { (row.new ≡ kept row.old (axes_joined row.old sample)) × (result ≡ fitted_with (Ok tt) (axes_joined row.old sample)) }
{
    *row = row.joined(sample)?;
    Ok(())
}

// With a sample more, in the row of the range in force. No write of an unknown code is accepted, so no sample comes in an unknown range: there is
// no row for one.
#[tactic(auto, unfolding(crate::specs::Tally::ranges_sampled))]
fn add_in(ranges: &mut ByRange, range: Range, sample: ByAxis) -> Result<(), TooLarge>
    ensures { (ranges.new ≡ kept ranges.old (ranges_sampled ranges.old range sample)) × (result ≡ fitted_with (Ok tt) (ranges_sampled ranges.old range sample)) }
{
    match range {
        Range::G2 => add(&mut ranges.g2, sample),
        Range::G4 => add(&mut ranges.g4, sample),
        Range::G8 => add(&mut ranges.g8, sample),
        Range::G16 => add(&mut ranges.g16, sample),
        Range::Reserved => Ok(()),
    }
}

impl Sums {
    // Before the first event.
    pub fn none() -> Self
        ensures { result ≡ no_sums }
    {
        Sums {
            totals: Totals {
                clock: 0,
                ranges: ByRange::none(),
            },
            fitted: Ok(()),
        }
    }

    // The totals, where every one has fitted.
    pub fn so_far(self) -> Result<Totals, TooLarge>
        ensures { result ≡ so_far self }
    {
        self.fitted?;
        Ok(self.totals)
    }

    // A clock of so many microseconds comes. Here and in `add_sample` the sums are lent: by value each event would copy all rows.
    #[tactic(auto, unfolding(crate::specs::Tally::sums_clocked))]
    pub fn add_clock(&mut self, microseconds: u32)
        ensures { self.new ≡ sums_clocked self.old microseconds }
    {
        match join_counts(self.totals.clock, microseconds as u64) {
            Ok(clock) => self.totals.clock = clock,
            Err(refusal) => self.fitted = Err(refusal),
        }
    }

    // An accepted sample comes, as it is stored, in the range in force. Out of line, so that the sums stay where they lie: compiled in place, all
    // of them would be carried from record to record.
    #[inline(never)]
    #[tactic(auto, unfolding(crate::specs::Tally::sums_sampled))]
    pub fn add_sample(&mut self, range: Range, x: i16, y: i16, z: i16)
        ensures { self.new ≡ sums_sampled self.old range x y z }
    {
        if let Err(refusal) = add_in(&mut self.totals.ranges, range, one_sample(x, y, z)) {
            self.fitted = Err(refusal);
        }
    }

    // Behind a clock of so many microseconds.
    pub fn clocked(mut self, microseconds: u32) -> Self
        ensures { result ≡ sums_clocked self microseconds }
    {
        self.add_clock(microseconds);
        self
    }

    // Behind an accepted sample, as it is stored, in the range in force.
    pub fn sampled(mut self, range: Range, x: i16, y: i16, z: i16) -> Self
        ensures { result ≡ sums_sampled self range x y z }
    {
        self.add_sample(range, x, y, z);
        self
    }
}
