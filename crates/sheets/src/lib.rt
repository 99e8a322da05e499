// Q-8: a sheet of many logs in numbers, and two of them joined. All is exact, in 64 bits: counts and clock unsigned, sums signed. Where a total would not
// fit, a join gives none, and the first of two stays with its caller as it is. It rests on no device: who makes a sheet of a log gives what came.
#![tactic(auto)]

ghost use Rattle.std.specs.Prelude.{◌≡◌};
ghost use Rattle.sheets.specs.Sheets.{no_tally, no_tallies, no_ranges, empty_sheet, empty_month, wider, extremes_over, count_joined, sum_joined, tally_joined, axes_joined, ranges_joined, sheet_joined, month_joined, too_large, fit_number};

// The smallest and the largest of some stored counts.
#[derive(Clone, Copy, Debug, PartialEq, Eq)]
pub struct Extremes {
    pub smallest: i16,
    pub largest: i16,
}

// What the stored counts of one axis in one range come to: their extremes, none where no sample came, and their sum.
#[derive(Clone, Copy)]
pub struct Tally {
    pub extremes: Option<Extremes>,
    pub sum: i64,
}

// By axis.
#[derive(Clone, Copy)]
pub struct ByAxis {
    pub x: Tally,
    pub y: Tally,
    pub z: Tally,
}

// By the range in force at the sample: 2, 4, 8 and 16 g.
#[derive(Clone, Copy)]
pub struct ByRange {
    pub g2: ByAxis,
    pub g4: ByAxis,
    pub g8: ByAxis,
    pub g16: ByAxis,
}

// A sheet: samples accepted, taken by a readout, held at the end, lost, and held when the FIFO was cleared; the clock, in microseconds; and
// the tallies of the stored counts.
#[derive(Clone, Copy)]
pub struct Sheet {
    pub accepted: u64,
    pub taken: u64,
    pub held: u64,
    pub lost: u64,
    pub cleared: u64,
    pub clock: u64,
    pub ranges: ByRange,
}

// A sheet, over how many logs it is, and how many of them were refused.
#[derive(Clone, Copy)]
pub struct Month {
    pub sheet: Sheet,
    pub logs: u64,
    pub refused: u64,
}

// A total that would not fit. What a join was to add to stays with the caller, as it was.
#[derive(Clone, Copy, Debug, PartialEq, Eq)]
pub struct TooLarge;

// The refusal of a total that would not fit.
pub const TOO_LARGE: u8 = 15;

impl From<TooLarge> for u8 {
    ghost from_gives = { λ _ number. number ≡ too_large };

    fn from(_refusal: TooLarge) -> u8 {
        TOO_LARGE
    }
}

// The number of a join, by whether it fits (`joined.is_ok()`): 0, or 15 where a total would not.
pub fn join_number(fits: bool) -> u8
    ensures { result ≡ fit_number fits }
{
    if fits { 0 } else { TOO_LARGE }
}

// ---- totals. No trait for the joins: each names its own fields, and nothing is generic over a total
#[tactic(auto, unfolding(crate::specs::Sheets::count_fits, crate::specs::Sheets::count_joined))]
pub fn join_counts(count: u64, more: u64) -> Result<u64, TooLarge>
    ensures { result ≡ count_joined count more }
{
    count.checked_add(more).ok_or(TooLarge)
}

#[tactic(auto, unfolding(crate::specs::Sheets::sum_fits, crate::specs::Sheets::sum_joined))]
pub fn join_sums(sum: i64, more: i64) -> Result<i64, TooLarge>
    ensures { result ≡ sum_joined sum more }
{
    sum.checked_add(more).ok_or(TooLarge)
}

impl Extremes {
    // Over both.
    fn wider(self, more: Extremes) -> Self
        ensures { result ≡ wider self more }
    {
        Extremes {
            smallest: self.smallest.min(more.smallest),
            largest: self.largest.max(more.largest),
        }
    }
}

// Over both: where no sample came to one of them, the other's.
pub fn extremes_over(first: Option<Extremes>, more: Option<Extremes>) -> Option<Extremes>
    ensures { result ≡ extremes_over first more }
{
    match (first, more) {
        (Some(own), Some(others)) => Some(own.wider(others)),
        (Some(_), None) => first,
        (None, _) => more,
    }
}

impl Tally {
    pub fn none() -> Self
        ensures { result ≡ no_tally }
    {
        Tally {
            extremes: None,
            sum: 0,
        }
    }

    pub fn joined(self, more: Tally) -> Result<Self, TooLarge>
        ensures { result ≡ tally_joined self more }
    {
        Ok(Tally {
            extremes: extremes_over(self.extremes, more.extremes),
            sum: join_sums(self.sum, more.sum)?,
        })
    }
}

impl ByAxis {
    pub fn none() -> Self
        ensures { result ≡ no_tallies }
    {
        ByAxis {
            x: Tally::none(),
            y: Tally::none(),
            z: Tally::none(),
        }
    }

    pub fn joined(self, more: ByAxis) -> Result<Self, TooLarge>
        ensures { result ≡ axes_joined self more }
    {
        Ok(ByAxis {
            x: self.x.joined(more.x)?,
            y: self.y.joined(more.y)?,
            z: self.z.joined(more.z)?,
        })
    }
}

impl ByRange {
    pub fn none() -> Self
        ensures { result ≡ no_ranges }
    {
        ByRange {
            g2: ByAxis::none(),
            g4: ByAxis::none(),
            g8: ByAxis::none(),
            g16: ByAxis::none(),
        }
    }

    pub fn joined(self, more: ByRange) -> Result<Self, TooLarge>
        ensures { result ≡ ranges_joined self more }
    {
        let g2 = self.g2.joined(more.g2)?;
        let g4 = self.g4.joined(more.g4)?;
        let g8 = self.g8.joined(more.g8)?;
        let g16 = self.g16.joined(more.g16)?;
        Ok(ByRange { g2, g4, g8, g16 })
    }
}

impl Sheet {
    // Over no log.
    pub fn empty() -> Self
        ensures { result ≡ empty_sheet }
    {
        Sheet {
            accepted: 0,
            taken: 0,
            held: 0,
            lost: 0,
            cleared: 0,
            clock: 0,
            ranges: ByRange::none(),
        }
    }

    // "joining two sheets equals the sheet over both": held at the end is the sum too, since each log starts at power-up.
    pub fn joined(self, more: Sheet) -> Result<Self, TooLarge>
        ensures { result ≡ sheet_joined self more }
    {
        Ok(Sheet {
            accepted: join_counts(self.accepted, more.accepted)?,
            taken: join_counts(self.taken, more.taken)?,
            held: join_counts(self.held, more.held)?,
            lost: join_counts(self.lost, more.lost)?,
            cleared: join_counts(self.cleared, more.cleared)?,
            clock: join_counts(self.clock, more.clock)?,
            ranges: self.ranges.joined(more.ranges)?,
        })
    }
}

impl Month {
    // Over no log.
    pub fn empty() -> Self
        ensures { result ≡ empty_month }
    {
        Month {
            sheet: Sheet::empty(),
            logs: 0,
            refused: 0,
        }
    }

    pub fn joined(self, more: Month) -> Result<Self, TooLarge>
        ensures { result ≡ month_joined self more }
    {
        Ok(Month {
            sheet: self.sheet.joined(more.sheet)?,
            logs: join_counts(self.logs, more.logs)?,
            refused: join_counts(self.refused, more.refused)?,
        })
    }
}
