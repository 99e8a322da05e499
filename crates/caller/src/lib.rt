// What a program has of its caller beside the standard streams: the words behind its name, descriptors that a caller may have opened for it,
// and whether the reader of what it writes is gone. No contract can say what the words are, or where a byte goes.
#![tactic(auto)]

ghost use Rattle.std.specs.Prelude.{false, ◌≡◌, ◌≤◌, length};
ghost use Rattle.std.specs.Process.{exit_status};
ghost use Rattle.caller.specs.Output.{status_of};

use std::env::FillError;
use std::fs::OpenOptions;
use std::io::{ErrorKind, Write};
use std::os::unix::fs::PermissionsExt;
use std::process::ExitCode;
use std::rt::{Env, Files};
use std::{fs, io};

// The right to write, in the mode of a descriptor's link.
const WRITES: u32 = 0o200;

// How many words the program was started with, its own name among them. They come one by one, by their place: no iterator has them.
pub fn word_count<R: Env>(rt: &R) -> usize {
    let mut room = [0u8; 1];
    for i in 0..usize::MAX {
        if let Err(FillError::NotPresent) = rt.arg(i, &mut room) {
            return i;
        }
    }
    usize::MAX
}

// Puts the word with this number at the front of a buffer: how many bytes it has, or 0 where it is missing or does not fit.
pub fn word_at<R: Env>(rt: &R, i: usize, buffer: &mut [u8]) -> usize
    ensures { result ≤ length buffer.new }
{
    match rt.arg(i, &mut *buffer) {
        Ok(n) => n,
        Err(_) => 0,
    }
}

// Whether a descriptor, by the path of its link, is open and is written to.
fn is_written<R: Files>(rt: &R, link: &str) -> bool {
    match fs::symlink_metadata(rt, link) {
        Ok(it) => it.permissions().mode() & WRITES != 0,
        Err(_) => false,
    }
}

// A byte for whoever opened a descriptor, by the path of its link. One that is not open, or that is read, gets none.
pub fn put_byte<R: Files>(rt: &R, link: &str, byte: u8) {
    if !is_written(rt, link) {
        return;
    }
    if let Ok(mut file) = OpenOptions::new().append(true).open(rt, link) {
        let _ = file.write_all(&[byte]);
    }
}

// The status of a process that ends since the reader of what it writes is gone: that of one which SIGPIPE ended, as a shell tells it. The
// toolchain has its programs ignore that signal.
const CLOSED: u8 = 141;

// A writer, and whether its reader was gone at some write.
#[derive(Drop)]
pub struct Output<W> {
    to: W,
    is_closed: bool,
}

impl<W: Write> Output<W> {
    pub fn new(to: W) -> Self
        ensures to { result.to ≡ to }
        ensures open { result.is_closed ≡ false }
    {
        Output {
            to,
            is_closed: false,
        }
    }

    pub fn is_closed(&self) -> bool
        ensures { result ≡ self.now.is_closed }
    {
        self.is_closed
    }

    // The status of the process where this is all that it still writes. Whatever else its end was is told by a digit.
    pub fn status(&self) -> ExitCode
        ensures { exit_status result ≡ status_of self.now.is_closed }
    {
        if self.is_closed {
            ExitCode::from(CLOSED)
        } else {
            ExitCode::SUCCESS
        }
    }
}

impl<W: Write> Write for Output<W> {
    ghost contents = { λ output. W.contents output.to };

    fn write(&mut self, buf: &[u8]) -> io::Result<usize> {
        let put = self.to.write(buf);
        if let Err(error) = &put {
            if error.kind() == ErrorKind::BrokenPipe {
                self.is_closed = true;
            }
        }
        put
    }

    fn flush(&mut self) -> io::Result<()> {
        self.to.flush()
    }
}
