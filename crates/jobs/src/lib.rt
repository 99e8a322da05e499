// Whoever follows a log for a program: the replay, the answer, or the sheet. One pump serves them all.
#![tactic(auto)]

ghost use Rattle.std.specs.Prelude.{◌≡◌, length};
ghost use Rattle.follow.specs.Follow.{run_of, Running};
ghost use Rattle.follow.specs.Teller.{Lawful};
ghost use Rattle.playback.specs.Replay.{replays};
ghost use Rattle.answers.specs.Answer.{answers};
ghost use Rattle.sheeting.specs.Sheeting.{sheets};
ghost use Rattle.jobs.specs.Follower.{Following, worker, the_replay, the_answer, the_sheet};

use answers::Answering;
use follow::Ran;
use playback::Replay;
use sheeting::Sheeting;

// Whoever follows a log, by the state that the records of the log move on. A pump that is generic over it is compiled for each program
// without the others, and then each event of the device is called from one place.
pub trait Follower: Copy {
    // What the teller of this state does, and how many records came to it.
    ghost following: { Following Self };

    // As many steps as there is input and room for.
    fn run(self, log: &[u8], last: bool, out: &mut [u8]) -> Ran<Self>
        ensures { Running (worker following) out.old (run_of (worker following) self log.now last (length out.old)) out.new result };

    fn record_count(self) -> u64
        ensures { result ≡ following.record_count self };

    // Behind the version byte, and behind a record, the version byte is past.
    ghost lawful: { Lawful (worker following) };
}

impl Follower for Replay {
    ghost following = { the_replay };

    ghost lawful = { replays };

    fn run(self, log: &[u8], last: bool, out: &mut [u8]) -> Ran<Replay> {
        playback::run(self, log, last, out)
    }

    // The next record has a number: the one before it, where there is one, came last.
    fn record_count(self) -> u64 {
        self.next_number().saturating_sub(1)
    }
}

impl Follower for Answering {
    ghost following = { the_answer };

    ghost lawful = { answers };

    fn run(self, log: &[u8], last: bool, out: &mut [u8]) -> Ran<Answering> {
        answers::run(self, log, last, out)
    }

    fn record_count(self) -> u64 {
        self.records()
    }
}

impl Follower for Sheeting {
    ghost following = { the_sheet };

    ghost lawful = { sheets };

    // It prints nothing.
    fn run(self, log: &[u8], last: bool, out: &mut [u8]) -> Ran<Sheeting> {
        sheeting::run(self, log, last, &*out)
    }

    fn record_count(self) -> u64 {
        self.records()
    }
}
