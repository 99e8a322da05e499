// Replays the log on standard input to standard output; with `pins`, the pins stand behind every record's line.
#![tactic(auto)]

ghost use Rattle.std.specs.Prelude.{None, ◌≡◌};
ghost use Rattle.replay.specs.Program.{ReplayedAs};

use arguments::pins_of;
use caller::Output;
use playback::Replay;
use std::io::Write;
use std::process::ExitCode;
use stream::Ended;

// How the replay that was asked for came to its end.
fn tell_replayed<E: Write>(
    rt: &HostRuntime,
    errors: &mut E,
    wanted: Option<bool>,
    ended: Ended<Replay>,
)
    requires { ReplayedAs wanted ended }
{
    ending::tell_end(rt, errors, b"replay", ended);
}

// Where nothing was asked for in so many words.
fn tell_misused<E: Write>(rt: &HostRuntime, errors: &mut E, wanted: Option<bool>)
    requires { wanted ≡ None }
{
    ending::tell_use(
        rt,
        errors,
        b"replay",
        b"it takes no argument, or the word pins",
    );
}

fn main(rt: HostRuntime) -> ExitCode {
    let mut first = [0u8; 4096];
    let n = caller::word_at(&rt, 1, &mut first);
    let mut errors = Output::new(rt.stderr());
    // of a word that does not fit into its buffer the count is 0, and an empty word asks for nothing
    let wanted = pins_of(caller::word_count(&rt), &first[..n]);
    let Some(pins) = wanted else {
        tell_misused(&rt, &mut errors, wanted);
        return errors.status();
    };
    let mut output = Output::new(rt.stdout());
    let ended = stream::pump_replay(&mut rt.stdin(), &mut output, pins);
    if output.is_closed() {
        return output.status();
    }
    tell_replayed(&rt, &mut errors, wanted, ended);
    errors.status()
}
