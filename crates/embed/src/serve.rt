// Calls on a string that is kept as numbers: it is put together, served, and taken apart again.
ghost use Rattle.std.specs.Prelude.{◌≡◌};
ghost use Rattle.breaker.specs.Breakers.{breaker_meaning};
ghost use Rattle.drive.specs.Drives.{drive_meaning};
ghost use Rattle.script.specs.Scripts.{script_meaning};
ghost use Rattle.embed.specs.States.{DriveString, ScriptString, KeptString, Numbers, PartsIn, Served, Serves};

use super::kept::Kept;
use super::refusal::ServeRefusal;
use super::state::{Kind, Parts, SavedString};
use breaker::{Breaker, Progress};
use bus::address::StationAddress;
use chip::chip::Ncr5385e;
use drive::drive::Drive;
use registers::answer::Answer;
use registers::call::{CallRow, Ran, RunRefusal};
use saved::numbers::{SavedBreaker, SavedChip};
use saved::refusal::NotSaved;
use script::row::Row;
use script::script::Script;
use scsi_string::ScsiString;

// The parts of a string over such a station, or an error where no such string has these numbers.
fn parts_in<S: Kept>(state: &SavedString, lent: S::Lent) -> Result<Parts<S::Mark>, NotSaved>
    ensures { PartsIn (S.within (S.lent_as lent)) S.holds S.kind_is state.now result }
{
    if Kind::try_from(state.kind).map_err(|_| NotSaved)? != S::kind() {
        return Err(NotSaved);
    }
    let chip = Ncr5385e::try_from(state.chip)?;
    let progress = Progress::try_from(state.breaker)?;
    let address = StationAddress::try_from(state.address)?;
    let mark = S::mark_in(state, lent)?;
    Ok(Parts {
        chip,
        progress,
        address,
        mark,
    })
}

fn keep<S: Kept>(state: &mut SavedString, parts: Parts<S::Mark>)
    ensures numbers { Numbers S.kind_is S.holds parts state.new }
    ensures rest { S.rest state.new.drive state.new.script ≡ S.rest state.old.drive state.old.script }
{
    state.chip = SavedChip::from(parts.chip);
    state.breaker = SavedBreaker::from(parts.progress);
    state.kind = u8::from(S::kind());
    state.address = parts.address.number();
    S::keep_mark(state, parts.mark);
}

// Serves the string with these parts.
fn serve_parts<S: Kept + Drop>(
    state: &mut SavedString,
    lent: S::Lent,
    parts: Parts<S::Mark>,
    calls: &[CallRow],
    answers: &mut [Answer],
) -> Result<Ran, RunRefusal>
    requires within { S.within (S.lent_as lent) parts.mark }
    requires numbers { Numbers S.kind_is S.holds parts state.old }
    ensures serves { Serves (breaker_meaning S.Station.meaning) (KeptString S.Station.meaning S.stands S.lent_to (S.lent_as lent) S.kind_is (S.within (S.lent_as lent)) S.holds) state.old calls.now answers.old state.new answers.new result }
    ensures rest { S.rest state.new.drive state.new.script ≡ S.rest state.old.drive state.old.script }
{
    let below = S::resumed(lent, parts.address, parts.mark);
    let station = Breaker::resume(below, parts.progress);
    let mut string = ScsiString::from_parts(parts.chip, station);
    let ran = string.run(calls, answers);
    let (chip, station) = string.into_parts();
    let progress = station.progress();
    let below = station.into_below();
    let left = Parts {
        chip,
        progress,
        address: below.address(),
        mark: below.mark(),
    };
    keep::<S>(state, left);
    ran
}

// Serves a string over such a station; it is refused where the numbers are those of no such string.
fn serve<S: Kept + Drop>(
    state: &mut SavedString,
    lent: S::Lent,
    calls: &[CallRow],
    answers: &mut [Answer],
) -> Result<Ran, ServeRefusal>
    ensures served { Served (breaker_meaning S.Station.meaning) (KeptString S.Station.meaning S.stands S.lent_to (S.lent_as lent) S.kind_is (S.within (S.lent_as lent)) S.holds) state.old calls.now answers.old state.new answers.new result }
    ensures rest { S.rest state.new.drive state.new.script ≡ S.rest state.old.drive state.old.script }
{
    let Ok(parts) = parts_in::<S>(state, lent) else {
        return Err(ServeRefusal::NoString);
    };
    serve_parts::<S>(state, lent, parts, calls, answers).map_err(ServeRefusal::Run)
}

// Serves a string whose station is a drive; the numbers of a script stay as they are. The arguments stay apart, here and in
// what is called, for the C interface that this is to be: it hands over each for itself.
pub fn serve_drive(
    state: &mut SavedString,
    image: &[u8],
    calls: &[CallRow],
    answers: &mut [Answer],
) -> Result<Ran, ServeRefusal>
    ensures served { Served (breaker_meaning drive_meaning) (DriveString image.now) state.old calls.now answers.old state.new answers.new result }
    ensures rest { state.new.script ≡ state.old.script }
{
    serve::<Drive>(state, image, calls, answers)
}

// Serves a string whose station is a script; the numbers of a drive stay as they are.
pub fn serve_script(
    state: &mut SavedString,
    rows: &[Row],
    calls: &[CallRow],
    answers: &mut [Answer],
) -> Result<Ran, ServeRefusal>
    ensures served { Served (breaker_meaning script_meaning) (ScriptString rows.now) state.old calls.now answers.old state.new answers.new result }
    ensures rest { state.new.drive ≡ state.old.drive }
{
    serve::<Script>(state, rows, calls, answers)
}
