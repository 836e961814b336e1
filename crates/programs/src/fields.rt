// The words of a line, read one after the other, and numbers up to a bound. `#` begins a comment.
ghost use Rattle.std.specs.Prelude.{◌≡◌, ◌==◌, ◌≤◌, ◌↔◌, ◌∷◌, [], None, Some, IsSome, IsNone, IfSome, IfOk, IfErr, OnOk};
ghost use Rattle.std.specs.List.{before_first};
ghost use Rattle.std.specs.Str.{trim};
ghost use Rattle.std.specs.Str.Iter.{split_whitespace_rest, split_whitespace_steps};
ghost use Rattle.programs.specs.Numbers.{DigitsWrite, Writes, WritesNext, WritesNoneUpTo, WritesAll, FindsLast};
ghost use Rattle.programs.specs.Texts.{expected_text, unexpected_text, TellsNext, TellsRow};
ghost use Rattle.programs.specs.declared.fields.Expected.TheVariants.{Words, Number};

use script::row::Row;
use std::error::Error;
use std::fmt;
use std::str::SplitWhitespace;

// How numbers are written; never with a sign.
#[derive(Clone, Copy, Debug, PartialEq, Eq)]
pub enum Notation {
    Decimal,
    // hex after 0x, and else decimal
    DecimalOrHex,
}

// How a program writes its numbers, and the words with which it tells their bound.
#[derive(Clone, Copy, Debug)]
pub struct Style {
    pub notation: Notation,
    pub range: &'static str,
}

// What is expected in a line: what some words say; or a number, by its name, the words before its bound, and the bound.
#[derive(Clone, Copy, Debug)]
pub enum Expected {
    Words(&'static str),
    Number {
        name: &'static str,
        range: &'static str,
        most: u32,
    },
}

// What was expected, and what stood there; no word is the end of the line.
#[derive(Clone, Copy, Debug)]
pub struct Unexpected<'a> {
    pub expected: Expected,
    pub found: Option<&'a str>,
}

impl fmt::Display for Expected {
    ghost output = { λ e. Some (expected_text e) };

    fn fmt<W: fmt::Write>(&self, f: &mut fmt::Formatter<W>) -> fmt::Result {
        match *self {
            Expected::Words(words) => f.write_str(words),
            Expected::Number { name, range, most } => write!(f, "{name}, {range} {most}"),
        }
    }
}

impl<'a> fmt::Display for Unexpected<'a> {
    ghost output = { λ u. Some (unexpected_text u) };

    fn fmt<W: fmt::Write>(&self, f: &mut fmt::Formatter<W>) -> fmt::Result {
        let expected = self.expected;
        match self.found {
            Some(word) => write!(f, "expected {expected}, and found '{word}'"),
            None => write!(f, "expected {expected}, and the line ends"),
        }
    }
}

impl<'a> Error for Unexpected<'a> {}

fn without_comment(line: &str) -> &str
    ensures { result.now ≡ before_first (λ b. b == 35) line.now }
{
    line.split_once('#').map_or(line, |(before, _)| before)
}

fn unsigned(digits: &str, radix: u32) -> Option<u32>
    requires lower_bound { 2 ≤ radix }
    requires upper_bound { radix ≤ 36 }
    ensures { DigitsWrite radix digits.now result }
{
    if digits.starts_with('+') {
        return None;
    }
    u32::from_str_radix(digits, radix).ok()
}

impl Notation {
    fn number(self, word: &str) -> Option<u32>
        ensures { Writes self word.now result }
    {
        match (self, word.strip_prefix("0x")) {
            (Notation::DecimalOrHex, Some(digits)) => unsigned(digits, 16),
            _ => unsigned(word, 10),
        }
    }
}

// The words that are left of a line.
#[derive(Drop)]
pub struct Fields<'a> {
    pub words: SplitWhitespace<'a>,
    pub style: Style,
}

impl<'a> Fields<'a> {
    // The words of a line, unless there is none before a comment.
    pub fn of_line(line: &'a str, style: Style) -> Option<Self>
        ensures none { IsNone result ↔ (trim (before_first (λ b. b == 35) line.now) ≡ []) }
        ensures words { IfSome result (λ f. split_whitespace_rest f.words ≡ trim (before_first (λ b. b == 35) line.now)) }
        ensures style { IfSome result (λ f. f.style ≡ style) }
    {
        let text = without_comment(line).trim();
        if text.is_empty() {
            return None;
        }
        Some(Fields {
            words: text.split_whitespace(),
            style,
        })
    }

    // The next word.
    pub fn word(&mut self, expected: &'static str) -> Result<&'a str, Unexpected<'a>>
        ensures ok { IfOk result (λ w. split_whitespace_steps self.old.words (Some w) self.new.words) }
        ensures ended { IfErr result (λ _. split_whitespace_steps self.old.words None self.new.words) }
        ensures err { IfErr result (λ e. (e.expected ≡ Words expected.entry) × (e.found ≡ None)) }
        ensures style { self.new.style ≡ self.old.style }
    {
        self.words.next().ok_or(Unexpected {
            expected: Expected::Words(expected),
            found: None,
        })
    }

    // The next word, which is a number up to the bound.
    #[tactic(auto, unfolding(crate::specs::Numbers::WritesNext))]
    pub fn number(&mut self, name: &'static str, most: u32) -> Result<u32, Unexpected<'a>>
        ensures bound { IfOk result (λ n. n ≤ most) }
        ensures ok { IfOk result (λ n. WritesNext self.old.style.notation self.old.words n self.new.words) }
        ensures err { IfErr result (TellsNext (Number name.entry self.old.style.range most) self.old.words self.new.words) }
        ensures refused { IfErr result (λ e. IfSome e.found (WritesNoneUpTo self.old.style.notation most)) }
        ensures style { self.new.style ≡ self.old.style }
    {
        let Style { notation, range } = self.style;
        let found = self.words.next();
        found
            .and_then(|word| notation.number(word))
            .filter(|number| *number <= most)
            .ok_or(Unexpected {
                expected: Expected::Number { name, range, most },
                found,
            })
    }

    // The next word, which is a number up to 255.
    pub fn byte(&mut self, name: &'static str) -> Result<u8, Unexpected<'a>>
        ensures ok { IfOk result (λ n. WritesNext self.old.style.notation self.old.words n self.new.words) }
        ensures err { IfErr result (TellsNext (Number name.entry self.old.style.range 255) self.old.words self.new.words) }
        ensures refused { IfErr result (λ e. IfSome e.found (WritesNoneUpTo self.old.style.notation 255)) }
        ensures style { self.new.style ≡ self.old.style }
    {
        let number = self.number(name, 255)?;
        Ok(number as u8)
    }

    // The next five words, which are the numbers of a row of a script; each is told by its name.
    pub fn row(&mut self, names: [&'static str; 5]) -> Result<Row, Unexpected<'a>>
        ensures ok { IfOk result (λ r. WritesAll self.old.style.notation self.old.words (r.kind ∷ r.phase ∷ r.byte ∷ r.parity ∷ r.next ∷ []) self.new.words) }
        ensures err { IfErr result (λ e. FindsLast e.found self.new.words) }
        ensures told { IfErr result (TellsRow self.old.style.notation self.old.style.range names.entry self.old.words self.new.words) }
        ensures refused { IfErr result (λ e. IfSome e.found (WritesNoneUpTo self.old.style.notation 255)) }
        ensures style { self.new.style ≡ self.old.style }
    {
        let [kind, phase, byte, parity, next] = names;
        Ok(Row {
            kind: self.byte(kind)?,
            phase: self.byte(phase)?,
            byte: self.byte(byte)?,
            parity: self.byte(parity)?,
            next: self.number(next, u32::MAX)?,
        })
    }

    // That there is no word left.
    pub fn end(&mut self) -> Result<(), Unexpected<'a>>
        ensures ok { OnOk result (split_whitespace_steps self.old.words None self.new.words) }
        ensures err { IfErr result (λ e. IsSome e.found × split_whitespace_steps self.old.words e.found self.new.words) }
    {
        match self.words.next() {
            None => Ok(()),
            found => Err(Unexpected {
                expected: Expected::Words("the end of the line"),
                found,
            }),
        }
    }
}
