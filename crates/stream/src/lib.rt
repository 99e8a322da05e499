// Pumps a log from a reader to a writer through whoever follows it. No contract can say what is read or written: of the two calls this
// says what they are handed and what is made of what they give; every byte of the text is the follower's.
#![tactic(auto)]

mod handed;

ghost use Rattle.std.specs.Prelude.{◌≡◌, length};
ghost use Rattle.follow.specs.Follow.{Running};
ghost use Rattle.follow.specs.Whole.{printed_from};
ghost use Rattle.playback.specs.Replay as replay;
ghost use Rattle.answers.specs.Answer as answer;
ghost use Rattle.sheeting.specs.Sheeting as sheet;
ghost use Rattle.jobs.specs.Follower.{worker};
ghost use Rattle.window.specs.Window.{Within};
ghost use Rattle.stream.specs.Pump.{pump_start, ran_over, after_run, is_on, is_wait, how_after, MoreReadAs, BehindWrite, TurnedAs, ended_at, PumpedAs, status_of, status_number};

use answers::{Answering, Asked};
use benchlog::Refusal;
use follow::{Halt, Ran};
use handed::{Delivered, write_run};
use jobs::Follower;
use playback::Replay;
use sheeting::Sheeting;
use std::io;
use std::io::{Read, Write};
use window::{Window, refill};

// The follower, as it is behind the text that is written; and the window of the buffer, where the bytes of the input stand that are there
// and not used.
#[derive(Clone, Copy)]
struct State<F> {
    follower: F,
    window: Window,
}

// What a turn of the pump comes to: another turn; the end of the log, by a refusal or none; or a call that failed.
#[derive(Clone, Copy)]
pub enum How {
    On,
    Stopped(Option<Refusal>),
    NotRead,
    NotWritten,
}

// How a pump came to its end, and the follower as it is there: behind the last text that was written whole.
#[derive(Clone, Copy)]
pub struct Ended<F> {
    pub how: How,
    pub follower: F,
}

// That, and the state behind the turn.
#[derive(Clone, Copy)]
struct Turned<F> {
    how: How,
    state: State<F>,
}

// 65,536 zeros, so that a log is moved by few calls.
fn large_buffer() -> [u8; 65536]
    ensures { 65536 ≡ length result }
{
    [0; 65536]
}

// Before the first read.
fn begin<F: Follower>(follower: F) -> State<F>
    ensures { result ≡ pump_start follower }
{
    State {
        follower,
        window: Window::start(),
    }
}

// A run over all that came and is not used.
fn run_over<F: Follower>(state: State<F>, buffer: &[u8], text: &mut [u8]) -> Ran<F>
    requires { Within state.window (length buffer.now) }
    ensures { Running (worker F.following) text.old (ran_over (worker F.following) state buffer.now (length text.old)) text.new result }
{
    let window = state.window;
    let from = window.from;
    let to = window.to;
    state.follower.run(&buffer[from..to], window.last, text)
}

// The state behind a run whose text is written.
fn after_run<F: Follower>(state: State<F>, ran: Ran<F>) -> State<F>
    ensures { result ≡ after_run state ran.state ran.used }
{
    let follower = ran.state;
    let window = state.window;
    State {
        follower,
        window: window.past(ran.used),
    }
}

// More of the input behind what is not used.
fn read_more<R: Read, F: Follower>(input: &mut R, state: State<F>, buffer: &mut [u8]) -> Turned<F>
    ensures { MoreReadAs result.how state buffer.old result.state buffer.new }
{
    let follower = state.follower;
    let mut window = state.window;
    let read = refill(input, &mut window, buffer);
    let how = match read {
        Ok(()) => How::On,
        Err(_) => How::NotRead,
    };
    Turned {
        how,
        state: State { follower, window },
    }
}

// Whether a run waits for more of the log.
fn waits(halt: Halt) -> bool
    ensures { result ≡ is_wait halt }
{
    matches!(halt, Halt::Wait)
}

// What a turn comes to behind a run that does not wait.
fn how_after(halt: Halt) -> How
    ensures { result ≡ how_after halt }
{
    match halt {
        Halt::Wait | Halt::Full => How::On,
        Halt::Stop(refusal) => How::Stopped(refusal),
    }
}

// Behind a run and the write of its text: where the text is not written whole, the pump ends; and where the run waits for more, a read.
fn after_write<R: Read, F: Follower>(
    delivered: Delivered,
    input: &mut R,
    state: State<F>,
    ran: Ran<F>,
    buffer: &mut [u8],
) -> Turned<F>
    ensures { BehindWrite delivered.whole state ran buffer.old result.how result.state buffer.new }
{
    if !delivered.is_whole() {
        return Turned {
            how: How::NotWritten,
            state,
        };
    }
    let next = after_run(state, ran);
    let halt = ran.halt;
    if waits(halt) {
        return read_more(input, next, buffer);
    }
    Turned {
        how: how_after(halt),
        state: next,
    }
}

// One run, its text, and where the run waits for more, a read.
fn turn<R: Read, W: Write, F: Follower>(
    input: &mut R,
    output: &mut W,
    state: State<F>,
    buffer: &mut [u8],
    text: &mut [u8],
) -> Turned<F>
    requires { Within state.window (length buffer.old) × (65536 ≡ length buffer.old) }
    ensures { TurnedAs (worker F.following) result.how state buffer.old (length text.old) result.state buffer.new }
{
    let room = text.len();
    let ran = run_over(state, &*buffer, &mut *text);
    let to = ran.to;
    let delivered = write_run(output, state, &*buffer, room, &text[..to]);
    after_write(delivered, input, state, ran, buffer)
}

fn goes_on(how: How) -> bool
    ensures { result ≡ is_on how }
{
    matches!(how, How::On)
}

// The end of a pump behind a turn.
fn ended_at<F: Follower>(how: How, state: State<F>) -> Ended<F>
    ensures { result ≡ ended_at how state }
{
    Ended {
        how,
        follower: state.follower,
    }
}

// What a follower prints of the log that a reader gives, handed to a writer.
fn pump<R: Read, W: Write, F: Follower>(input: &mut R, output: &mut W, follower: F) -> Ended<F>
    ensures { PumpedAs result.how (printed_from (worker F.following) follower) (worker F.following) follower result }
{
    let mut buffer = large_buffer();
    let mut text = large_buffer();
    let mut state = begin(follower);
    for _ in 0..u64::MAX {
        let turned = turn(&mut *input, &mut *output, state, &mut buffer, &mut text);
        state = turned.state;
        let how = turned.how;
        if !goes_on(how) {
            return ended_at(how, state);
        }
    }
    ended_at(How::On, state)
}

// The replay of the log that a reader gives, handed to a writer. pins says whether the pins stand behind every record's line.
pub fn pump_replay<R: Read, W: Write>(input: &mut R, output: &mut W, pins: bool) -> Ended<Replay>
    ensures { PumpedAs result.how (replay.printed pins) replay.replayer (replay.start pins) result }
{
    pump(input, output, Replay::start(pins))
}

// The answer to what is asked of the log that a reader gives, handed to a writer.
pub fn pump_answer<R: Read, W: Write>(
    input: &mut R,
    output: &mut W,
    asked: Asked,
) -> Ended<Answering>
    ensures { PumpedAs result.how (answer.printed asked) answer.answerer (answer.start asked) result }
{
    pump(input, output, Answering::start(asked))
}

// The sheet of the log that a reader gives, in the follower that is handed back. Nothing is printed, so nothing is written anywhere.
pub fn pump_sheet<R: Read>(input: &mut R) -> Ended<Sheeting>
    ensures { PumpedAs result.how (printed_from sheet.sheeter sheet.start) sheet.sheeter sheet.start result }
{
    let mut nowhere = io::sink();
    pump(input, &mut nowhere, Sheeting::start())
}

// ---- statuses
// The status of a program: done, a log was refused, input or output failed, or it was not used as it is meant to be. Of two that hold, the later
// one is told.
#[derive(Clone, Copy, Debug, PartialEq, Eq, PartialOrd, Ord)]
pub enum Status {
    Done,
    Refused,
    Failed,
    Misused,
}

// The number that a caller sees.
impl From<Status> for u8 {
    ghost from_gives = { λ status number. number ≡ status_number status };

    fn from(status: Status) -> u8 {
        match status {
            Status::Done => 0,
            Status::Refused => 3,
            Status::Failed => 1,
            Status::Misused => 2,
        }
    }
}

// The status of a program that came to its end so.
pub fn status_of(how: How) -> Status
    ensures { result ≡ status_of how }
{
    match how {
        How::On => Status::Failed,
        How::Stopped(None) => Status::Done,
        How::Stopped(Some(_)) => Status::Refused,
        How::NotRead => Status::Failed,
        How::NotWritten => Status::Failed,
    }
}
