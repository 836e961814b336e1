// Bytes as people read them: sixteen to a line, in hex and as text.
#![tactic(auto)]

use std::fmt;

// Shows bytes with the offset of each line, and their ASCII text at the side.
#[derive(Clone, Copy)]
pub struct Hexdump<'a>(pub &'a [u8]);

// A line has two halves.
const PER_HALF: usize = 8;

const PER_LINE: usize = 16;

// What stands for a byte in text: itself where it can be printed, else a dot.
fn printable(byte: u8) -> char {
    match byte {
        b' '..=b'~' => char::from(byte),
        _ => '.',
    }
}

// Half a line in hex, filled up with blanks.
fn half<W: fmt::Write>(f: &mut fmt::Formatter<W>, bytes: &[u8]) -> fmt::Result {
    write!(f, " ")?;
    for byte in bytes {
        write!(f, "{byte:02x} ")?;
    }
    for _ in bytes.len()..PER_HALF {
        write!(f, "   ")?;
    }
    Ok(())
}

fn line<W: fmt::Write>(f: &mut fmt::Formatter<W>, offset: usize, bytes: &[u8]) -> fmt::Result {
    let (left, right) = bytes.split_at(bytes.len().min(PER_HALF));
    write!(f, "{offset:05x} ")?;
    half(f, left)?;
    half(f, right)?;
    write!(f, " |")?;
    for byte in bytes {
        write!(f, "{}", printable(*byte))?;
    }
    writeln!(f, "|")
}

impl<'a> fmt::Display for Hexdump<'a> {
    fn fmt<W: fmt::Write>(&self, f: &mut fmt::Formatter<W>) -> fmt::Result {
        for (offset, bytes) in (0..).step_by(PER_LINE).zip(self.0.chunks(PER_LINE)) {
            line(f, offset, bytes)?;
        }
        Ok(())
    }
}
