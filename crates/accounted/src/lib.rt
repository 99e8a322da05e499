// What is known of a device behind a record of a log: the account of its events, stepped by the record's own.
#![tactic(auto)]

ghost use Rattle.std.specs.Prelude.{◌≡◌};
ghost use Rattle.account.specs.Account.{account_after};
ghost use Rattle.entries.specs.Entries.{event_of};

use account::{after_idle, after_read, after_sample, after_write};
use benchlog::Entry;
use counts::{Account, Shown};
use registers::Answer;

// By the record, its answer, and what is shown behind it.
#[tactic(auto, unfolding(entries::specs::Entries::event_of))]
pub fn account_behind(account: Account, entry: Entry, answer: Answer, shown: Shown) -> Account
    ensures { result ≡ account_after account (event_of entry) answer shown.range shown.mode shown.held }
{
    match entry {
        Entry::Write(w) => after_write(account, w.address, w.byte, answer, shown),
        Entry::Read(q) => after_read(account, q.address, q.count, answer, shown),
        Entry::Sample(s) => after_sample(account, s.x, s.y, s.z, s.temperature, answer, shown),
        Entry::CycleStart(_) => after_idle(account, answer, shown),
        Entry::Clock(_) => after_idle(account, answer, shown),
    }
}
