// The window of a lent buffer: of the input's bytes, those that came and are not used. No contract can say what a read gives: this says
// into what it is handed, and what is made of what it gives.
#![tactic(auto)]

mod given;

ghost use Rattle.std.specs.Prelude.{◌≡◌, ◌+◌, IfOk, length};
ghost use Rattle.std.specs.Int.{w64};
ghost use Rattle.std.proofs.Common.{Fits};
ghost use Rattle.laws.specs.Bytes.{moved_forward};
ghost use Rattle.window.specs.Window.{start, past, at_front, with_read, more_of, RefilledAs};

pub use given::ReadFailed;
use given::{Got, read_into};
use laws::{least, move_forward};
use std::io::Read;

// The bytes that came and are not used stand from one place of the buffer up to another; and whether the input has ended.
#[derive(Clone, Copy)]
pub struct Window {
    pub from: usize,
    pub to: usize,
    pub last: bool,
}

impl Window {
    // Before the first read.
    pub fn start() -> Self
        ensures { result ≡ start }
    {
        Window {
            from: 0,
            to: 0,
            last: false,
        }
    }

    // So many bytes more are used, as far as there are so many.
    pub fn past(self, used: usize) -> Self
        ensures { result ≡ past self used }
    {
        let left = self.to - least(self.from, self.to);
        Window {
            from: self.from + least(used, left),
            to: self.to,
            last: self.last,
        }
    }
}

// What is not used moves to the front of the buffer.
fn move_to_front(window: Window, buffer: &mut [u8]) -> Window
    ensures { (result ≡ at_front window buffer.old) × (buffer.new ≡ moved_forward window.from window.to buffer.old) }
{
    let to = move_forward(buffer, window.from, window.to);
    Window {
        from: 0,
        to,
        last: window.last,
    }
}

// The window behind a read of so many bytes: of none, where the input has ended.
fn after_read(window: Window, n: usize) -> Window
    requires { Fits w64 (window.to + n) }
    ensures { result ≡ with_read window n }
{
    Window {
        from: window.from,
        to: window.to + n,
        last: n == 0,
    }
}

// The window behind a read, by what it gave.
fn more_of(window: Window, got: Got) -> Result<Window, ReadFailed>
    requires { IfOk got.count (λ n. Fits w64 (window.to + n)) }
    ensures { result ≡ more_of window got }
{
    let n = got.count()?;
    Ok(after_read(window, n))
}

// More of the input behind what is not used, which moves to the front. It fails where the read does, and where the buffer has no room for
// more.
pub fn refill<R: Read>(
    input: &mut R,
    window: &mut Window,
    buffer: &mut [u8],
) -> Result<(), ReadFailed>
    ensures { RefilledAs result window.old buffer.old window.new buffer.new }
{
    *window = move_to_front(*window, &mut *buffer);
    let to = window.to;
    let got = read_into(input, &mut buffer[to..]);
    *window = more_of(*window, got)?;
    Ok(())
}
