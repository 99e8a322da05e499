// The one write. No contract can say what is written: what it came to is a value that only this module makes, so whoever needs one has to
// hand over the text that a run gave, whole.
ghost use Rattle.std.specs.Prelude.{◌≡◌};
ghost use Rattle.jobs.specs.Follower.{worker};
ghost use Rattle.stream.specs.Pump.{ran_over};

use crate::State;
use jobs::Follower;
use std::io::Write;

// What the write of a text came to: whether all of it was taken. The error is let go, so a Result in its place would say no more.
#[derive(Clone, Copy)]
pub struct Delivered {
    whole: bool,
}

impl Delivered {
    pub fn is_whole(self) -> bool
        ensures { result ≡ self.whole }
    {
        self.whole
    }
}

// The text of a run over all that came and is not used, handed to the write: that text, whole.
pub fn write_run<W: Write, F: Follower>(
    output: &mut W,
    state: State<F>,
    buffer: &[u8],
    room: usize,
    text: &[u8],
) -> Delivered
    requires { text.now ≡ (ran_over (worker F.following) state buffer.now room).text }
{
    Delivered {
        whole: output.write_all(text).is_ok(),
    }
}
