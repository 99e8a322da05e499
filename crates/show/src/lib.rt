// Printing for the test programs. No contract can say what is written.
#![tactic(auto)]

use std::io::Write;

pub fn text<W: Write>(out: &mut W, bytes: &[u8]) {
    let _ = out.write_all(bytes);
}

pub fn number<W: Write>(out: &mut W, n: u64) {
    let _ = write!(out, "{n}");
}

pub fn byte<W: Write>(out: &mut W, byte: u8) {
    let _ = write!(out, "{byte:02x}");
}

// Bytes in hexadecimal.
pub fn bytes<W: Write>(out: &mut W, list: &[u8]) {
    for one in list {
        byte(out, *one);
    }
}
