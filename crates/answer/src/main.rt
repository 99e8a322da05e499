// Answers what is asked of the log on standard input, on standard output: its stretches; with `modes`, their modes; with `samples`, its
// samples too; in words, with FROM TO, what came after record FROM and up to record TO; and with `all`, what came at all.
#![tactic(auto)]

ghost use Rattle.std.specs.Prelude.{None, ◌≡◌};
ghost use Rattle.answer.specs.Program.{AnsweredAs};

use answers::{Answering, Asked};
use arguments::wanted_of;
use caller::Output;
use std::io::Write;
use std::process::ExitCode;
use stream::Ended;

// How the answer that was asked for came to its end.
fn tell_answered<E: Write>(
    rt: &HostRuntime,
    errors: &mut E,
    wanted: Option<Asked>,
    ended: Ended<Answering>,
)
    requires { AnsweredAs wanted ended }
{
    ending::tell_end(rt, errors, b"answer", ended);
}

// Where nothing was asked for in so many words.
fn tell_misused<E: Write>(rt: &HostRuntime, errors: &mut E, wanted: Option<Asked>)
    requires { wanted ≡ None }
{
    ending::tell_use(
        rt,
        errors,
        b"answer",
        b"it takes no argument, one of the words modes, samples and all, or two record numbers, of which the first is smaller",
    );
}

fn main(rt: HostRuntime) -> ExitCode {
    let mut first = [0u8; 4096];
    let mut second = [0u8; 4096];
    let m = caller::word_at(&rt, 1, &mut first);
    let n = caller::word_at(&rt, 2, &mut second);
    let mut errors = Output::new(rt.stderr());
    // of a word that does not fit into its buffer the count is 0, and an empty word asks for nothing
    let wanted = wanted_of(caller::word_count(&rt), &first[..m], &second[..n]);
    let Some(asked) = wanted else {
        tell_misused(&rt, &mut errors, wanted);
        return errors.status();
    };
    let mut output = Output::new(rt.stdout());
    let ended = stream::pump_answer(&mut rt.stdin(), &mut output, asked);
    if output.is_closed() {
        return output.status();
    }
    tell_answered(&rt, &mut errors, wanted, ended);
    errors.status()
}
