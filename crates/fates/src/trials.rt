// Strings that are made over a station and have a list of calls run on them.
ghost use Rattle.std.specs.Prelude.{◌≡◌};
ghost use Rattle.account.specs.Fates.{EveryFate, RecordsTell};
ghost use Rattle.fates.specs.Trials.{TrialSays, record_in, same, Compares};

use super::records::same_record;
use bus::address::StationAddress;
use bus::station::Station;
use registers::answer::Answer;
use registers::call::{CallRow, Ran, RunRefusal};
use scsi_string::ScsiString;

// What a string is made over, and the calls that are run on it.
// The answers stand beside it: a clause names what is behind a struct's `&mut` only by its place, as `exit.1.1.1`.
#[derive(Drop)]
pub struct Setup<'a, S> {
    pub address: StationAddress,
    pub station: S,
    pub calls: &'a [CallRow],
}

// A string after its run, and what the run told.
#[derive(Drop)]
pub struct Tried<S> {
    pub string: ScsiString<S>,
    pub ran: Result<Ran, RunRefusal>,
}

// Makes a string over a station, runs a list of calls on it, and hands it back with what the run told. Every byte that the
// station put up has its fate in the answers, in the chip or at the station.
#[tactic(auto, using(crate::proofs::Trying::tried))]
pub fn trial<S: Station>(setup: Setup<S>, answers: &mut [Answer]) -> Tried<S>
    ensures { TrialSays S.meaning setup.entry answers.old result answers.new }
{
    let mut string = ScsiString::new(setup.address, setup.station);
    let ran = string.run(setup.calls, answers);
    Tried { string, ran }
}

// Two trials, and whether their records are equal.
#[derive(Drop)]
pub struct Comparison<P, Q> {
    pub first: Tried<P>,
    pub second: Tried<Q>,
    pub equal: bool,
}

// Makes two strings over any two stations, runs a list of calls on each, and compares their records. Complete records are
// equal exactly when the stations put up equal bytes.
#[tactic(auto, using(crate::proofs::Comparing::compares))]
pub fn compare<P: Station, Q: Station>(
    first: Setup<P>,
    first_answers: &mut [Answer],
    second: Setup<Q>,
    second_answers: &mut [Answer],
) -> Comparison<P, Q>
    ensures first { TrialSays P.Station.meaning first.entry first_answers.old result.first first_answers.new }
    ensures second { TrialSays Q.Station.meaning second.entry second_answers.old result.second second_answers.new }
    ensures equal { result.equal ≡ same (record_in first.entry.calls.now first_answers.new) (record_in second.entry.calls.now second_answers.new) }
    ensures records { Compares P.Station.meaning Q.Station.meaning first.entry first_answers.new second.entry second_answers.new result }
    ensures fates { EveryFate P.Station.meaning × EveryFate Q.Station.meaning }
    ensures histories { RecordsTell P.Station.meaning Q.Station.meaning }
{
    let (first_calls, second_calls) = (first.calls, second.calls);
    let first = trial(first, first_answers);
    let second = trial(second, second_answers);
    let equal = same_record(first_calls, first_answers, second_calls, second_answers);
    Comparison {
        first,
        second,
        equal,
    }
}
