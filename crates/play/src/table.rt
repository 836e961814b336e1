// The text of a table: a row to a line, `kind phase byte parity next`, in decimal or 0x hex. `#` begins a comment.
use super::failure::Failure;
use programs::fields::{Fields, Notation, Style, Unexpected};
use script::row::Row;
use std::alloc::Global;

const STYLE: Style = Style {
    notation: Notation::DecimalOrHex,
    range: "a number up to",
};

const NAMES: [&'static str; 5] = [
    "the kind",
    "the phase",
    "the byte",
    "the parity",
    "the next",
];

fn row_of<'a>(fields: &mut Fields<'a>) -> Result<Row, Unexpected<'a>> {
    let row = fields.row(NAMES)?;
    fields.end()?;
    Ok(row)
}

// The rows of a text, or the first line that is none.
pub fn rows_of(heap: Global, path: &str, text: &str) -> Result<Vec<Row>, Failure> {
    let mut rows = Vec::new(heap);
    for (line, words) in (1u64..).zip(text.lines()) {
        let Some(mut fields) = Fields::of_line(words, STYLE) else {
            continue;
        };
        match row_of(&mut fields) {
            Ok(row) => rows.push(row)?,
            Err(unexpected) => {
                return Err(Failure::NoRow {
                    path: String::from_str(heap, path)?,
                    line,
                    fault: format!(in heap; "{unexpected}")?,
                });
            }
        }
    }
    Ok(rows)
}
