// How a program that pumps a log ends. Where the input cannot be read or the output cannot be written, a line on standard error says so.
// The digit of its status goes to descriptor 3, for a caller that opens it: the status of the process is 0.
#![tactic(auto)]

ghost use Rattle.std.specs.Prelude.{◌≡◌};
ghost use Rattle.stream.specs.Pump.{status_of};
ghost use Rattle.ending.specs.Ending.{digit_of, misused, whole_up_to};

use jobs::Follower;
use std::io::Write;
use std::rt::Files;
use stream::{Ended, How, Status, status_of};

// The link of descriptor 3.
const STATUS: &str = "/proc/self/fd/3";

// The digit of a status, in ASCII.
fn digit_of(status: Status) -> u8
    ensures { result ≡ digit_of status }
{
    48u8.wrapping_add(status.into())
}

// The digit of a program that came to its end so.
fn give_ended<R: Files>(rt: &R, how: How, digit: u8)
    requires { digit ≡ digit_of (status_of how) }
{
    caller::put_byte(rt, STATUS, digit);
}

// The digit of a program that was not used as it is meant to be.
fn give_misused<R: Files>(rt: &R, digit: u8)
    requires { digit ≡ digit_of misused }
{
    caller::put_byte(rt, STATUS, digit);
}

// The digit of a program that has this status.
fn give_status<R: Files>(rt: &R, status: Status, digit: u8)
    requires { digit ≡ digit_of status }
{
    caller::put_byte(rt, STATUS, digit);
}

// Some bytes of a line on standard error. Where that is not written, nothing else can say so.
fn say<E: Write>(errors: &mut E, bytes: &[u8]) {
    let _ = errors.write_all(bytes);
}

// What failed, and the record up to which the text is whole.
fn tell_failed<E: Write, F: Follower>(
    errors: &mut E,
    program: &[u8],
    what: &[u8],
    ended: Ended<F>,
    whole: u64,
)
    requires { whole ≡ whole_up_to F.following ended }
{
    say(&mut *errors, program);
    say(&mut *errors, b": ");
    say(&mut *errors, what);
    say(&mut *errors, b"; the text is whole up to record ");
    let _ = writeln!(errors, "{whole}");
}

// The end of a program, by its name, behind its pump.
pub fn tell_end<R: Files, E: Write, F: Follower>(
    rt: &R,
    errors: &mut E,
    program: &[u8],
    ended: Ended<F>,
) {
    let how = ended.how;
    let whole = ended.follower.record_count();
    match how {
        How::On => tell_failed(errors, program, b"the input is too long", ended, whole),
        How::Stopped(_) => {}
        How::NotRead => tell_failed(errors, program, b"the input cannot be read", ended, whole),
        How::NotWritten => {
            tell_failed(
                errors,
                program,
                b"the output cannot be written",
                ended,
                whole,
            )
        }
    }
    give_ended(rt, how, digit_of(status_of(how)));
}

// The end of a program that was not used as it is meant to be: how it is used.
pub fn tell_use<R: Files, E: Write>(rt: &R, errors: &mut E, program: &[u8], use_line: &[u8]) {
    say(&mut *errors, program);
    say(&mut *errors, b": ");
    say(&mut *errors, use_line);
    say(&mut *errors, b"\n");
    give_misused(rt, digit_of(Status::Misused));
}

// The end of a program that has this status, behind all that it says.
pub fn tell_status<R: Files>(rt: &R, status: Status) {
    give_status(rt, status, digit_of(status));
}
