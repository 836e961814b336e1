// One line of a session: a word that says what it is, and its numbers.
use programs::fields::{Expected, Fields, Notation, Style, Unexpected};
use registers::call::CallRow;
use script::row::Row;

// What a breaker is made with.
#[derive(Clone, Copy, Debug)]
pub struct Break {
    pub after: u16,
    pub host: u8,
}

#[derive(Clone, Copy, Debug)]
pub enum Line<'a> {
    Session,
    Chip(u8),
    Script(u8),
    Row(Row),
    DriveFile(u8, &'a str),
    DrivePattern(u8, u32),
    Breaker(Break),
    Call(CallRow),
}

const STYLE: Style = Style {
    notation: Notation::Decimal,
    range: "a number from 0 to",
};

const WORDS: &'static str = "session, chip, script, row, drive, breaker or call";

const ROW: [&'static str; 5] = ["a kind", "a phase", "a byte", "a parity", "a next"];

const IMAGES: &'static str = "file or pattern";

fn unexpected<'a>(expected: &'static str, word: &'a str) -> Unexpected<'a> {
    Unexpected {
        expected: Expected::Words(expected),
        found: Some(word),
    }
}

fn drive<'a>(fields: &mut Fields<'a>) -> Result<Line<'a>, Unexpected<'a>> {
    let address = fields.byte("an address")?;
    match fields.word(IMAGES)? {
        "file" => Ok(Line::DriveFile(address, fields.word("a path")?)),
        "pattern" => Ok(Line::DrivePattern(address, fields.number("how many blocks", 4096)?)),
        word => Err(unexpected(IMAGES, word)),
    }
}

fn breaker<'a>(fields: &mut Fields<'a>) -> Result<Break, Unexpected<'a>> {
    let after = fields.number("after how many bytes", 65535)? as u16;
    let host = fields.byte("the host's address")?;
    Ok(Break { after, host })
}

fn call<'a>(fields: &mut Fields<'a>) -> Result<CallRow, Unexpected<'a>> {
    let kind = fields.byte("a kind")?;
    let address = fields.byte("an address")?;
    let value = fields.byte("a value")?;
    Ok(CallRow {
        kind,
        address,
        value,
    })
}

// What a line says, or nothing where no word stands before a comment.
pub fn line_of(text: &str) -> Result<Option<Line<'_>>, Unexpected<'_>> {
    let Some(mut fields) = Fields::of_line(text, STYLE) else {
        return Ok(None);
    };
    let line = match fields.word(WORDS)? {
        "session" => Line::Session,
        "chip" => Line::Chip(fields.byte("the chip's address")?),
        "script" => Line::Script(fields.byte("an address")?),
        "row" => Line::Row(fields.row(ROW)?),
        "drive" => drive(&mut fields)?,
        "breaker" => Line::Breaker(breaker(&mut fields)?),
        "call" => Line::Call(call(&mut fields)?),
        word => return Err(unexpected(WORDS, word)),
    };
    fields.end()?;
    Ok(Some(line))
}
