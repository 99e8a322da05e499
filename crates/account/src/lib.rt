// The account of a device's events, stepped by what the device says: an event, its answer, and what it shows behind it. It takes a few
// numbers whatever the events are.
#![tactic(auto)]

ghost use Rattle.std.specs.Prelude.{◌≡◌};
ghost use Rattle.events.specs.Event.{write, read, sample, cycle};
ghost use Rattle.account.specs.Account.{refused_by, readouts_by, why_of_write, why_of_read, doubt_after, doubts_after, account_after};

use codes::{CONTROL_AT, FRAMES_AT, RANGE_AT, RESET_AT};
use counts::{Account, Doubt, Doubts, Shown, Why};
use laws::both;
use registers::{Answer, SOFT_RESET, is_accepted};

// Why a stretch ends with a write: a soft reset, or one to 0x0F.
#[tactic(auto, unfolding(crate::specs::Account::why_of_write))]
pub fn why_of_write(address: u8, byte: u8, answer: Answer) -> Option<Why>
    ensures { result ≡ why_of_write address byte answer }
{
    if both(address as usize == RESET_AT, byte == SOFT_RESET) {
        return Some(Why::Reset);
    }
    if address as usize != RANGE_AT {
        return None;
    }
    if is_accepted(answer) {
        Some(Why::Range)
    } else {
        Some(Why::Refused)
    }
}

// Why a stretch ends with a read: a readout.
#[tactic(auto, unfolding(crate::specs::Account::why_of_read))]
pub fn why_of_read(address: u8, answer: Answer) -> Option<Why>
    ensures { result ≡ why_of_read address answer }
{
    if address as usize != FRAMES_AT {
        return None;
    }
    if is_accepted(answer) {
        Some(Why::Readout)
    } else {
        None
    }
}

// What is doubted of what the register at about sets, behind a write, which is event number.
#[tactic(auto, unfolding(crate::specs::Account::doubt_after))]
fn doubt_after(
    doubt: Option<Doubt>,
    about: usize,
    address: u8,
    byte: u8,
    answer: Answer,
    number: u64,
) -> Option<Doubt>
    ensures { result ≡ doubt_after doubt about address byte answer number }
{
    if both(address as usize == RESET_AT, byte == SOFT_RESET) {
        return None;
    }
    if address as usize != about {
        return doubt;
    }
    if is_accepted(answer) {
        None
    } else {
        Some(Doubt { byte, number })
    }
}

// Of the range and of the mode.
fn doubts_after(doubts: Doubts, address: u8, byte: u8, answer: Answer, number: u64) -> Doubts
    ensures { result ≡ doubts_after doubts address byte answer number }
{
    Doubts {
        range: doubt_after(doubts.range, RANGE_AT, address, byte, answer, number),
        mode: doubt_after(doubts.mode, CONTROL_AT, address, byte, answer, number),
    }
}

// 1 for an event that is refused.
fn refused_by(answer: Answer) -> u64
    ensures { result ≡ refused_by answer }
{
    if is_accepted(answer) { 0 } else { 1 }
}

// 1 for a readout.
fn readouts_by(address: u8, answer: Answer) -> u64
    ensures { result ≡ readouts_by address answer }
{
    if both(address as usize == FRAMES_AT, is_accepted(answer)) {
        1
    } else {
        0
    }
}

// Behind a write: its address, its byte and its answer, and what is shown behind it. Frames that left were cleared.
#[tactic(auto, unfolding(crate::specs::Account::account_after, crate::specs::Account::counts_after))]
pub fn after_write(account: Account, address: u8, byte: u8, answer: Answer, shown: Shown) -> Account
    ensures { result ≡ account_after account (write address byte) answer shown.range shown.mode shown.held }
{
    let cleared = account.held.wrapping_sub(shown.held);
    let counts = account.counts.with_left(0, cleared, refused_by(answer));
    let number = account.number.wrapping_add(1);
    let doubts = doubts_after(account.doubts, address, byte, answer, number);
    account.moved(counts, doubts, shown)
}

// Behind a read of so many bytes from an address on. Frames that left were taken.
#[tactic(auto, unfolding(crate::specs::Account::account_after, crate::specs::Account::counts_after))]
pub fn after_read(account: Account, address: u8, count: u8, answer: Answer, shown: Shown) -> Account
    ensures { result ≡ account_after account (read address count) answer shown.range shown.mode shown.held }
{
    let taken = account.held.wrapping_sub(shown.held);
    let counts = account.counts.with_left(taken, 0, refused_by(answer));
    let counts = counts.with_readouts(readouts_by(address, answer));
    account.moved(counts, account.doubts, shown)
}

// Behind a sample. Where it is accepted there is one frame more, or a sample was lost.
#[tactic(auto, unfolding(crate::specs::Account::account_after, crate::specs::Account::counts_after))]
pub fn after_sample(
    account: Account,
    x: i16,
    y: i16,
    z: i16,
    temperature: u8,
    answer: Answer,
    shown: Shown,
) -> Account
    ensures { result ≡ account_after account (sample x y z temperature) answer shown.range shown.mode shown.held }
{
    let counts = if is_accepted(answer) {
        let lost = account.held.wrapping_add(1).wrapping_sub(shown.held);
        account.counts.with_arrived(lost)
    } else {
        account.counts.with_left(0, 0, 1)
    };
    account.moved(counts, account.doubts, shown)
}

// Behind an event at which no frame comes or goes: a cycle start, or a clock, of which account_after says the same (proofs/Idle).
#[tactic(auto, unfolding(crate::specs::Account::account_after, crate::specs::Account::counts_after))]
pub fn after_idle(account: Account, answer: Answer, shown: Shown) -> Account
    ensures { result ≡ account_after account cycle answer shown.range shown.mode shown.held }
{
    let counts = account.counts.with_left(0, 0, refused_by(answer));
    account.moved(counts, account.doubts, shown)
}
