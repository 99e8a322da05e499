// What the words behind a program's name ask for. What is not asked for in so many words is not asked for.
#![tactic(auto)]

ghost use Rattle.std.specs.Prelude.{◌≡◌};
ghost use Rattle.arguments.specs.Words.{with_digit, number_of, same_word, by_word, between_of, wanted_of, pins_wanted_of, sheet_by_word, sheet_wanted_of};

use answers::Asked;

// A number with one digit more behind its own: none, where it is no digit or the number has more than 64 bits then.
#[tactic(auto, unfolding(crate::specs::Words::with_digit))]
fn with_digit(n: u64, c: u8) -> Option<u64>
    ensures { result ≡ with_digit n c }
{
    if c < b'0' || b'9' < c {
        return None;
    }
    n.checked_mul(10)?.checked_add((c - b'0') as u64)
}

// The number that decimal digits stand for.
#[tactic(auto, unfolding(crate::specs::Words::number_of))]
pub fn number_of(word: &[u8]) -> Option<u64>
    ensures { result ≡ number_of word.now }
{
    if word.is_empty() {
        return None;
    }
    let mut n: u64 = 0;
    for c in word {
        n = with_digit(n, *c)?;
    }
    Some(n)
}

// Whether a word is this one.
fn is_word(word: &[u8], this: &[u8]) -> bool
    ensures { result ≡ same_word word.now this.now }
{
    check::same(word, this)
}

// What one word asks for.
#[tactic(auto, unfolding(crate::specs::Words::by_word))]
fn by_word(word: &[u8]) -> Option<Asked>
    ensures { result ≡ by_word word.now }
{
    if is_word(word, b"modes") {
        return Some(Asked::Modes);
    }
    if is_word(word, b"samples") {
        return Some(Asked::Samples);
    }
    if is_word(word, b"all") {
        return Some(Asked::Whole);
    }
    None
}

// What came after one record and up to another, which is a later one.
fn between(from: Option<u64>, upto: Option<u64>) -> Option<Asked>
    ensures { result ≡ between_of from upto }
{
    let m = from?;
    let n = upto?;
    if m < n {
        Some(Asked::Between(m, n))
    } else {
        None
    }
}

// What is asked for by so many words, of which the program's name is one, and by the two behind it; where the words say so.
#[tactic(auto, unfolding(crate::specs::Words::wanted_of))]
pub fn wanted_of(count: usize, first: &[u8], second: &[u8]) -> Option<Asked>
    ensures { result ≡ wanted_of count first.now second.now }
{
    match count {
        1 => Some(Asked::Stretches),
        2 => by_word(first),
        3 => between(number_of(first), number_of(second)),
        _ => None,
    }
}

// Whether the pins are asked for behind every line of a replay, where the words say so: by so many words, of which the program's name is
// one, and by the one behind it.
#[tactic(auto, unfolding(crate::specs::Words::pins_wanted_of))]
pub fn pins_of(count: usize, first: &[u8]) -> Option<bool>
    ensures { result ≡ pins_wanted_of count first.now }
{
    match count {
        1 => Some(false),
        2 if is_word(first, b"pins") => Some(true),
        _ => None,
    }
}

// What is asked for of a sheet: the text or the bytes of the sheet over logs, or of sheets joined.
#[derive(Clone, Copy)]
pub enum SheetWanted {
    Print,
    Raw,
    Join,
    JoinRaw,
}

#[tactic(auto, unfolding(crate::specs::Words::sheet_by_word))]
fn sheet_by_word(word: &[u8]) -> Option<SheetWanted>
    ensures { result ≡ sheet_by_word word.now }
{
    if is_word(word, b"print") {
        return Some(SheetWanted::Print);
    }
    if is_word(word, b"raw") {
        return Some(SheetWanted::Raw);
    }
    if is_word(word, b"join") {
        return Some(SheetWanted::Join);
    }
    if is_word(word, b"join-raw") {
        return Some(SheetWanted::JoinRaw);
    }
    None
}

// What is asked for of a sheet, where the words say so: by so many words, of which the program's name is one, and by the one behind it.
// Behind that stands a name, at least.
#[tactic(auto, unfolding(crate::specs::Words::sheet_wanted_of))]
pub fn sheet_of(count: usize, first: &[u8]) -> Option<SheetWanted>
    ensures { result ≡ sheet_wanted_of count first.now }
{
    if count < 3 {
        return None;
    }
    sheet_by_word(first)
}
