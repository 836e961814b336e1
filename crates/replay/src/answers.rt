// Plays a session on a string of its own, and prints every answer.
use super::failure::Fault;
use super::line::Break;
use super::session::{Kind, Placed};
use breaker::Breaker;
use bus::address::StationAddress;
use bus::station::Tally;
use drive::drive::Drive;
use registers::answer::Answer;
use registers::call::CallRow;
use script::script::Script;
use scsi_string::{MOST_CALLS, ScsiString};
use std::alloc::Global;
use std::fmt;
use std::io::Write;

// The answers of a run, a line each.
#[derive(Clone, Copy)]
struct Lines<'a>(&'a [Answer]);

// How many calls a session made, how many bytes they lost, and how many are held and wait at the end.
#[derive(Clone, Copy)]
struct Sums {
    calls: usize,
    lost: u64,
    held: u8,
    waiting: usize,
}

fn show<W: fmt::Write>(f: &mut fmt::Formatter<W>, answer: &Answer) -> fmt::Result {
    let Answer {
        refusal,
        value,
        lines,
        cable,
        byte,
        phase,
        lost,
    } = *answer;
    writeln!(f, "{refusal} {value} {lines} {cable} {byte} {phase} {lost}")
}

impl<'a> fmt::Display for Lines<'a> {
    fn fmt<W: fmt::Write>(&self, f: &mut fmt::Formatter<W>) -> fmt::Result {
        for answer in self.0.iter() {
            show(f, answer)?;
        }
        Ok(())
    }
}

impl fmt::Display for Sums {
    fn fmt<W: fmt::Write>(&self, f: &mut fmt::Formatter<W>) -> fmt::Result {
        let Sums {
            calls,
            lost,
            held,
            waiting,
        } = *self;
        writeln!(f, "calls {calls} lost {lost} held {held} waiting {waiting}")
    }
}

// Runs the calls, as many at a time as a run takes. The answers of a run are printed before the next, so that no more of them
// are held than of one run.
fn answer<S: Tally + Drop, W: Write>(
    heap: Global,
    out: &mut W,
    mut string: ScsiString<S>,
    calls: &[CallRow],
) -> Result<(), Fault> {
    let mut answers = vec![in heap; Answer::default(); calls.len().min(MOST_CALLS)]?;
    let mut lost: u64 = 0;
    for part in calls.chunks(MOST_CALLS) {
        let ran = string
            .run(part, answers.as_mut_slice())
            .map_err(|_| Fault::RunRefused)?;
        lost = lost.wrapping_add(u64::from(ran.lost));
        write!(out, "{}", Lines(&answers.as_slice()[..part.len()]))?;
    }
    let sums = Sums {
        calls: calls.len(),
        lost,
        held: string.held(),
        waiting: string.waiting(),
    };
    write!(out, "{sums}")?;
    Ok(())
}

// Under the breaker, where the session has one.
fn answer_under<S: Tally + Drop, W: Write>(
    heap: Global,
    out: &mut W,
    placed: &Placed,
    station: S,
) -> Result<(), Fault> {
    let chip = StationAddress::new(placed.chip);
    let calls = placed.calls.as_slice();
    match placed.breaker {
        None => answer(heap, out, ScsiString::new(chip, station), calls),
        Some(Break { after, host }) => {
            let over = Breaker::new(station, after, StationAddress::new(host));
            answer(heap, out, ScsiString::new(chip, over), calls)
        }
    }
}

pub fn play<W: Write>(heap: Global, out: &mut W, placed: &Placed) -> Result<(), Fault> {
    let address = StationAddress::new(placed.address);
    match &placed.kind {
        Kind::Script(rows) => {
            let script = Script::new(rows.as_slice(), address);
            answer_under(heap, out, placed, script)
        }
        Kind::Drive(image) => {
            let drive = Drive::new(image.as_slice(), address);
            answer_under(heap, out, placed, drive)
        }
    }
}
