// Stations that a host keeps as numbers.
ghost use Rattle.std.specs.Prelude.{◌≡◌, ℕ, List};
ghost use Rattle.account.specs.Alike.{SeenAs};
ghost use Rattle.bus.specs.Meaning.{Meaning};
ghost use Rattle.drive.specs.Drives.{store_of};
ghost use Rattle.drive.specs.Images.{stored};
ghost use Rattle.embed.specs.States.{MarkIn, StandsAt, SameBeside, Seen, seen_of, NamesOne, Lasts, any_stage, drive_holds, script_holds};
ghost use Rattle.embed.specs.Driving.{drive_seen, drive_like, drive_names_one, drive_lasts};
ghost use Rattle.embed.specs.Scripting.{rows_of, place_at, script_seen, script_like, script_names_one, script_lasts};
ghost use Rattle.embed.specs.declared.state.Kind.{Kind};
ghost use Rattle.embed.specs.declared.state.SavedString.{SavedString};
ghost use Rattle.saved.specs.Stations.{InTable};
ghost use Rattle.saved.specs.declared.numbers.SavedDrive.{SavedDrive};
ghost use Rattle.saved.specs.declared.numbers.SavedScript.{SavedScript};
ghost use Rattle.script.specs.Scripts.{table};
ghost use Rattle.script.specs.declared.row.Row.{Row};

use super::state::{Kind, SavedString};
use bus::address::StationAddress;
use bus::station::Station;
use drive::drive::{Drive, Stage};
use saved::numbers::{SavedDrive, SavedScript};
use saved::refusal::NotSaved;
use saved::stations::place_of;
use script::row::{Row, counted};
use script::script::{Place, Script};

// A station that is put together from what the host lends, its address and a mark of where it stands; the mark has numbers
// in a string.
pub trait Kept: Station {
    // A disc image, or rows.
    type Lent: Copy;

    type Mark: Copy;

    ghost kind_is: { Kind };

    ghost stands: { Self → Self.Mark };

    // Bytes or rows, as a list.
    ghost Over: { Type 0 };

    // Those that a station works on.
    ghost lent_to: { Self → Over };

    // Those that the host lends.
    ghost lent_as: { Self.Lent → Over };

    // The marks that there can be over it.
    ghost within: { Over → Self.Mark → Type 0 };

    // These are the mark's numbers.
    ghost holds: { Self.Mark → SavedString → Type 0 };

    // What of a string the mark has no part in: the numbers of the other kind of station.
    ghost Rest: { Type 0 };

    ghost rest: { SavedDrive → SavedScript → Rest };

    // The meaning of what is seen of it.
    ghost seen: { Meaning (Seen Over Self.Mark) };

    // A function and not a constant: the check gives a constant no clause in an impl with a lifetime.
    fn kind() -> Kind
        ensures { result ≡ kind_is };

    // Over what is lent, to go on from there.
    fn resumed(lent: Self::Lent, address: StationAddress, mark: Self::Mark) -> Self
        ensures { StandsAt Self.Station.meaning stands lent_to (lent_as lent) address mark result };

    fn mark(&self) -> Self::Mark
        ensures { result ≡ stands self.now };

    // The mark of these numbers, or an error where none has them.
    fn mark_in(state: &SavedString, lent: Self::Lent) -> Result<Self::Mark, NotSaved>
        ensures { MarkIn (within (lent_as lent)) holds state.now result };

    // The numbers of this mark in the place of those that were there.
    fn keep_mark(state: &mut SavedString, mark: Self::Mark)
        ensures holds { holds mark state.new }
        ensures beside { SameBeside state.old state.new }
        ensures rest { rest state.new.drive state.new.script ≡ rest state.old.drive state.old.script };

    // Nothing that is not seen matters.
    ghost like: { SeenAs Self.Station.meaning seen (seen_of Self.Station.meaning lent_to stands) };

    ghost names_one: { (over : Over) → NamesOne (within over) holds };

    ghost lasts: { (over : Over) → Lasts Self.Station.meaning stands lent_to over (within over) };
}

impl<'a> Kept for Drive<'a> {
    type Lent = &'a [u8];

    type Mark = Stage;

    ghost kind_is = { Kind.Drive };

    ghost stands = { λ d. d.stage };

    ghost Over = { List ℕ };

    ghost lent_to = { store_of };

    ghost lent_as = { λ image. stored image.now };

    ghost within = { λ store. any_stage };

    ghost holds = { drive_holds };

    ghost Rest = { SavedScript };

    ghost rest = { λ drive script. script };

    ghost seen = { drive_seen };

    ghost like = { drive_like };

    ghost names_one = { λ store. drive_names_one };

    ghost lasts = { drive_lasts };

    fn kind() -> Kind
        ensures { result ≡ Kind.Drive }
    {
        Kind::Drive
    }

    fn resumed(image: &'a [u8], address: StationAddress, stage: Stage) -> Self {
        Drive::resume(image, address, stage)
    }

    fn mark(&self) -> Stage {
        self.stage()
    }

    fn mark_in(state: &SavedString, _image: &'a [u8]) -> Result<Stage, NotSaved> {
        Stage::try_from(state.drive)
    }

    fn keep_mark(state: &mut SavedString, mark: Stage)
        ensures holds { drive_holds mark state.new }
        ensures beside { SameBeside state.old state.new }
        ensures rest { state.new.script ≡ state.old.script }
    {
        state.drive = SavedDrive::from(mark);
    }
}

impl<'a> Kept for Script<'a> {
    type Lent = &'a [Row];

    type Mark = Place;

    ghost kind_is = { Kind.Script };

    ghost stands = { place_at };

    ghost Over = { List Row };

    ghost lent_to = { rows_of };

    ghost lent_as = { λ rows. table rows.now };

    ghost within = { InTable };

    ghost holds = { script_holds };

    ghost Rest = { SavedDrive };

    ghost rest = { λ drive script. drive };

    ghost seen = { script_seen };

    ghost like = { script_like };

    ghost names_one = { script_names_one };

    ghost lasts = { script_lasts };

    fn kind() -> Kind
        ensures { result ≡ Kind.Script }
    {
        Kind::Script
    }

    fn resumed(rows: &'a [Row], address: StationAddress, place: Place) -> Self {
        Script::resume(rows, address, place)
    }

    fn mark(&self) -> Place {
        self.place()
    }

    fn mark_in(state: &SavedString, rows: &'a [Row]) -> Result<Place, NotSaved> {
        place_of(state.script, counted(rows))
    }

    fn keep_mark(state: &mut SavedString, mark: Place)
        ensures holds { script_holds mark state.new }
        ensures beside { SameBeside state.old state.new }
        ensures rest { state.new.drive ≡ state.old.drive }
    {
        state.script = SavedScript::from(mark);
    }
}
