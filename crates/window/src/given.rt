// The one read. No contract can say what it gives: what it came to is a value that only this module makes, so whoever needs one has to
// read, and what is made of it has an exact contract.
ghost use Rattle.std.specs.Prelude.{◌≤◌, ◌≡◌, IfOk, length};
ghost use Rattle.window.specs.Given.{got_of, ReadInto};

use laws::least;
use std::io;
use std::io::Read;

// A read failed, or there was no room for it.
#[derive(Clone, Copy)]
pub struct ReadFailed;

// What a read gave: how many bytes, where it did not fail.
#[derive(Clone, Copy)]
pub struct Got {
    count: Result<usize, ReadFailed>,
}

impl Got {
    pub fn count(self) -> Result<usize, ReadFailed>
        ensures { result ≡ self.count }
    {
        self.count
    }
}

// What is made of a read's answer, by the room that it was lent.
fn got_of(answer: io::Result<usize>, room: &[u8]) -> Got
    ensures { (result ≡ got_of answer (length room.now)) × IfOk result.count (λ n. n ≤ length room.now) }
{
    let count = match answer {
        Ok(n) => Ok(least(n, room.len())),
        Err(_) => Err(ReadFailed),
    };
    Got { count }
}

// A read into some room: where there is none, it would give nothing and look like the end of the input, so it fails.
pub fn read_into<R: Read>(input: &mut R, room: &mut [u8]) -> Got
    ensures { ReadInto (length room.old) result }
{
    if room.is_empty() {
        return Got {
            count: Err(ReadFailed),
        };
    }
    let answer = input.read(&mut *room);
    got_of(answer, room)
}
