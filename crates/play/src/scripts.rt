// A script: the verdict on its chain, each record with its wish, and the bytes that it puts up.
use super::failure::Failure;
use super::table::rows_of;
use bus::address::StationAddress;
use bus::patient::attend;
use bus::wish::Wish;
use dump::Hexdump;
use script::record::Record;
use script::row::{MOST_ROWS, Row, check, counted};
use script::script::{Place, Script};
use std::alloc::Global;
use std::io::Write;
use std::rt::Files;
use std::{fs, io};

// Where the script stands on the cable; there is no other station.
const STATION: u8 = 2;

fn show_verdict<W: Write>(out: &mut W, rows: &[Row]) -> io::Result<()> {
    match check(rows) {
        Ok(records) => writeln!(out, "chain: {records} records, and it ends as it should"),
        Err(refusal) => {
            let record = refusal.record();
            let why = u8::from(refusal);
            writeln!(
                out,
                "chain: refused ({why}), the next of record {record} ends it wrongly"
            )
        }
    }
}

// One record as it was played: its number, and its wish and why, if it makes none.
fn show_record<W: Write>(out: &mut W, number: usize, row: Row, wish: Wish) -> io::Result<()> {
    write!(out, "{number:>4}  {wish}")?;
    if let Err(refusal) = Record::try_from(row) {
        let why = u8::from(refusal);
        write!(out, ", for the row makes no record ({why})")?;
    }
    writeln!(out)
}

// Plays the script as a patient initiator does, and collects the Data In bytes that come.
fn play_through<W: Write>(heap: Global, out: &mut W, rows: &[Row]) -> Result<Vec<u8>, Failure> {
    let mut script = Script::new(rows, StationAddress::new(STATION));
    let mut bytes = Vec::new(heap);
    // A chain has no more records than there are rows that count.
    for _ in 0..MOST_ROWS {
        let Place::At(number, row) = script.place() else {
            break;
        };
        let wish = attend(&mut script, 0);
        show_record(out, number, row, wish)?;
        if let Some(byte) = wish.data_in() {
            bytes.push(byte)?;
        }
    }
    Ok(bytes)
}

pub fn show_script<W: Write>(
    rt: &(impl Files + AllocGlobal),
    out: &mut W,
    path: &str,
) -> Result<(), Failure> {
    let heap = rt.alloc();
    let text = fs::read_to_string(rt, path)?;
    let table = rows_of(heap, path, text.as_str())?;
    let rows = table.as_slice();
    let all = rows.len();
    let counting = counted(rows).len();
    writeln!(out, "{path}: {all} rows, of which {counting} count")?;
    show_verdict(out, rows)?;
    let bytes = play_through(heap, out, rows)?;
    let sum = bytes.len();
    writeln!(out, "put up in Data In: {sum} bytes")?;
    write!(out, "{}", Hexdump(bytes.as_slice()))?;
    Ok(())
}
