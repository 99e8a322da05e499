// How a month takes logs and sheets, one after the other, and the status that a program has then.
#![tactic(auto)]

ghost use Rattle.std.specs.Prelude.{◌≡◌};
ghost use Rattle.gathering.specs.Gathering.{log_added, sheet_added, worse_of, month_status};
ghost use Rattle.gathering.specs.declared.LeftOut.TheVariants as left;

use sheetfile::{NoSheet, read_month};
use sheeting::{Sheeting, month_with};
use sheets::{Month, TooLarge};
use stream::{Ended, How, Status};

// Why a log or a sheet is left out: a total would not fit, it could not be read, or it is no sheet. The month stays with the caller, as it was.
#[derive(Clone, Copy, Debug, PartialEq, Eq)]
pub enum LeftOut {
    TooLarge,
    NotRead,
    NoSheet,
}

impl From<TooLarge> for LeftOut {
    ghost from_gives = { λ _ why. why ≡ left.TooLarge };

    fn from(_refusal: TooLarge) -> LeftOut {
        LeftOut::TooLarge
    }
}

impl From<NoSheet> for LeftOut {
    ghost from_gives = { λ _ why. why ≡ left.NoSheet };

    fn from(_refusal: NoSheet) -> LeftOut {
        LeftOut::NoSheet
    }
}

// With the log of a pump that came to its end so: where it was read as far as it goes, with the sheet of what came.
#[tactic(auto, unfolding(crate::specs::Gathering::log_added))]
pub fn with_log(month: Month, ended: Ended<Sheeting>) -> Result<Month, LeftOut>
    ensures { result ≡ log_added month ended }
{
    match ended.how {
        How::Stopped(refusal) => Ok(month_with(month, ended.follower.sheet(), refusal)?),
        How::On | How::NotRead | How::NotWritten => Err(LeftOut::NotRead),
    }
}

// With the sheet that bytes are.
#[tactic(auto, unfolding(crate::specs::Gathering::sheet_added))]
pub fn with_sheet(month: Month, bytes: &[u8]) -> Result<Month, LeftOut>
    ensures { result ≡ sheet_added month bytes.now }
{
    let more = read_month(bytes)?;
    Ok(month.joined(more)?)
}

// ---- statuses
// That of two which goes before the other: 2 goes before 1, 1 before 3, and 3 before 0.
#[tactic(auto, unfolding(crate::specs::Gathering::worse_of))]
pub fn worse(one: Status, other: Status) -> Status
    ensures { result ≡ worse_of one other }
{
    one.max(other)
}

// Of a month in which some log was refused, 3.
#[tactic(auto, unfolding(crate::specs::Gathering::month_status))]
pub fn status_of(month: Month) -> Status
    ensures { result ≡ month_status month }
{
    if month.refused == 0 {
        Status::Done
    } else {
        Status::Refused
    }
}
