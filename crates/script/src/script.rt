// The station that plays a script.
ghost use Rattle.std.specs.Prelude.{◌≡◌, ◌≤◌, length};
ghost use Rattle.script.specs.Records.{played, row_byte};
ghost use Rattle.script.specs.Scripts.{table, opening, follow, next_place, record_number, waiting_at, script_meaning, ScriptAt, Opened, PutsUp};
ghost use Rattle.script.specs.ScriptLawful.{script_lawful};

use super::record::Record;
use super::row::{Row, counted};
use bus::address::StationAddress;
use bus::station::{Station, Tally};
use bus::wish::Wish;
use chain::{Linked, leads};

// Where play stands.
#[derive(Clone, Copy, Debug, PartialEq, Eq)]
pub enum Place {
    // At a record: its number, and its row.
    At(usize, Row),
    // Past the last record.
    End,
    // Past the last record, and chosen there: one Go is due.
    Leaving,
}

#[derive(Drop)]
pub struct Script<'a> {
    // Only the rows that count.
    rows: &'a [Row],
    address: StationAddress,
    place: Place,
}

impl<'a> Script<'a> {
    // Play begins at record 1. The Data In bytes of the chain's records, in the chain's order, are all that this
    // station ever puts up.
    pub fn new(rows: &'a [Row], address: StationAddress) -> Self
        ensures opened { Opened rows.now address result }
        ensures law { PutsUp rows.now result }
    {
        Script::resume(rows, address, opening(rows))
    }

    // A script as it was left at a place, to go on from there.
    pub fn resume(rows: &'a [Row], address: StationAddress, place: Place) -> Self
        ensures { ScriptAt rows.now address place result }
    {
        Script {
            rows: counted(rows),
            address,
            place,
        }
    }

    // Where play stands.
    pub fn place(&self) -> Place
        ensures { result ≡ self.now.place }
    {
        let reached = self.place;
        reached
    }

    // The number of the present record, if play stands at one.
    pub fn record_number(&self) -> Option<usize>
        ensures { result ≡ record_number self.now.place }
    {
        match self.place {
            Place::At(number, _) => Some(number),
            _ => None,
        }
    }

    // Where the chain goes from the record with this number and row.
    fn following(&self, number: usize, row: Row) -> Place
        ensures { result ≡ follow self.now.rows.now number row.next }
    {
        let next = row.next();
        if leads(self.rows.len(), number, next) {
            Place::At(next, self.rows[next - 1])
        } else {
            Place::End
        }
    }

    fn next_place(&self) -> Place
        ensures { result ≡ next_place self.now.rows.now self.now.place }
    {
        match self.place {
            Place::At(number, row) => self.following(number, row),
            Place::End => Place::Leaving,
            Place::Leaving => Place::End,
        }
    }

    // Along the chain to its end. A loop: `successors` would take this same step in a closure, and stop by a second one.
    #[tactic(auto, using(crate::proofs::Counting::fewer, crate::proofs::Counting::one_more))]
    fn bytes_left(&self) -> usize
        ensures { result ≡ length (waiting_at self.now.rows.now self.now.place) }
    {
        let mut count = 0;
        let mut place = self.place;
        while let Place::At(number, row) = place {
            count += bytes_of(row);
            place = self.following(number, row);
        }
        count
    }
}

// Where play begins.
fn opening(rows: &[Row]) -> Place
    ensures { result ≡ opening (table rows.now) }
{
    counted(rows)
        .first()
        .map_or(Place::End, |row| Place::At(1, *row))
}

// How many Data In bytes a row puts up.
fn bytes_of(row: Row) -> usize
    ensures value { result ≡ length (row_byte row) }
    ensures bound { result ≤ 1 }
{
    usize::from(play(row).shows_data())
}

// A row that makes no record is played as Off.
fn play(row: Row) -> Wish
    ensures { result ≡ played row }
{
    Record::try_from(row).map_or(Wish::Off, Record::wish)
}

impl<'a> Station for Script<'a> {
    ghost meaning = { script_meaning };

    ghost lawful = { script_lawful };

    fn wish(&self) -> Wish {
        match self.place {
            Place::At(_, row) => play(row),
            Place::End => Wish::Off,
            Place::Leaving => Wish::Go,
        }
    }

    fn address(&self) -> StationAddress {
        self.address
    }

    fn chosen(&mut self, address: StationAddress, _atn: bool) -> bool {
        if !self.says_yes(address) {
            return false;
        }
        self.place = self.next_place();
        true
    }

    fn told(&mut self, _sent: u8) {
        if !self.wish().is_off() {
            self.place = self.next_place();
        }
    }
}

// The Data In bytes of the records from the present one on.
impl<'a> Tally for Script<'a> {
    fn waiting(&self) -> usize {
        self.bytes_left()
    }
}
