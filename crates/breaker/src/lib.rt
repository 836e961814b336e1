// The breaker: a fault in front of any station. It lets go of the cable in mid-record, and comes back.
#![tactic(auto)]

ghost use Rattle.std.specs.Prelude.{◌≡◌};
ghost use Rattle.breaker.specs.Breakers.{is_due, standing, passed_on, breaker_meaning, progress_of, starting, Made};
ghost use Rattle.breaker.specs.Breaks.{ChangesNothing, Breaks};
ghost use Rattle.breaker.specs.BreakerLawful.{breaker_lawful};
ghost use Rattle.breaker.specs.Stages.{StageNumber, StageOf};

use bus::address::StationAddress;
use bus::message::Message;
use bus::parity::Parity;
use bus::station::{Station, Tally};
use bus::wish::Wish;
use thiserror::Error;

// How far a break has come.
#[derive(Clone, Copy, Debug, PartialEq, Eq)]
pub enum Stage {
    // There is none: the station below is on the cable.
    Through,
    // It has the data pointer saved.
    Saving,
    // It says that it leaves.
    Disconnecting,
    // It drops BSY.
    Leaving,
    // It reselects the host.
    Returning,
    // It says who it is.
    Identifying,
}

// A number that no stage has: there are six.
#[derive(Clone, Copy, Debug, PartialEq, Eq, Error)]
#[error("there is no stage {0} of a break")]
pub struct NoSuchStage(pub u8);

impl From<Stage> for u8 {
    ghost from_gives = { StageNumber };

    fn from(stage: Stage) -> u8 {
        stage as u8
    }
}

impl TryFrom<u8> for Stage {
    type Error = NoSuchStage;

    ghost try_from_gives = { StageOf };

    fn try_from(number: u8) -> Result<Stage, NoSuchStage> {
        match number {
            0 => Ok(Stage::Through),
            1 => Ok(Stage::Saving),
            2 => Ok(Stage::Disconnecting),
            3 => Ok(Stage::Leaving),
            4 => Ok(Stage::Returning),
            5 => Ok(Stage::Identifying),
            _ => Err(NoSuchStage(number)),
        }
    }
}

// How far a breaker is, without the station below.
#[derive(Clone, Copy, Debug, PartialEq, Eq)]
pub struct Progress {
    // It breaks after so many Data In bytes; zero is never, for a breaker is made with such a number, and saved with it.
    pub after: u16,
    pub host: StationAddress,
    // The Data In bytes since the start or the last break.
    pub passed: u16,
    pub stage: Stage,
}

impl Progress {
    // No byte went through yet.
    fn start(after: u16, host: StationAddress) -> Self
        ensures { result ≡ starting after host }
    {
        Progress {
            after,
            host,
            passed: 0,
            stage: Stage::Through,
        }
    }
}

#[derive(Drop)]
pub struct Breaker<S> {
    below: S,
    progress: Progress,
}

impl<S: Station> Breaker<S> {
    // Over a station as it is. Whatever calls come, the bytes that are taken and that join are those of the station
    // below, and between two breaks exactly so many are taken.
    #[tactic(auto, using(crate::proofs::Passing::changes_nothing, crate::proofs::Counting::breaks))]
    pub fn new(below: S, after: u16, host: StationAddress) -> Self
        ensures made { Made below after host result }
        ensures bytes { ChangesNothing S.meaning result }
        ensures breaks { Breaks S.meaning result }
    {
        Breaker::resume(below, Progress::start(after, host))
    }

    // A breaker as it was left, to go on from there.
    pub fn resume(below: S, progress: Progress) -> Self
        ensures below { result.below ≡ below }
        ensures progress { progress_of result ≡ progress }
    {
        Breaker { below, progress }
    }

    // How far it is.
    pub fn progress(&self) -> Progress
        ensures { result ≡ progress_of self.now }
    {
        let reached = self.progress;
        reached
    }

    // The station below, as it is now.
    pub fn into_below(self) -> S
        ensures { result ≡ self.below }
    {
        let Breaker { below, progress: _ } = self;
        below
    }

    // Whether a break is due: so many bytes went through, and the station below shows one more.
    fn is_due(&self) -> bool
        ensures { result ≡ is_due S.meaning self.now }
    {
        let Progress { after, passed, .. } = self.progress;
        after > 0 && after <= passed && self.below.wish().shows_data()
    }

    // How far the break has come; where one is due, it begins.
    fn standing(&self) -> Stage
        ensures { result ≡ standing S.meaning self.now }
    {
        match self.progress.stage {
            Stage::Through if self.is_due() => Stage::Saving,
            stage => stage,
        }
    }

    // The station below was dealt with: a Data In byte is counted, and it is told.
    fn pass(&mut self, sent: u8)
        ensures { self.new ≡ passed_on S.meaning self.old sent }
    {
        if self.below.wish().shows_data() && self.progress.passed < self.progress.after {
            self.progress.passed += 1;
        }
        self.below.told(sent);
    }
}

impl<S: Station> Station for Breaker<S> {
    ghost meaning = { breaker_meaning S.Station.meaning };

    ghost lawful = { breaker_lawful S.Station.meaning S.Station.lawful };

    fn wish(&self) -> Wish {
        match self.standing() {
            Stage::Through => self.below.wish(),
            Stage::Saving => Wish::message(Message::SaveDataPointer),
            Stage::Disconnecting => Wish::message(Message::Disconnect),
            Stage::Leaving => Wish::Go,
            Stage::Returning => {
                let own = self.below.address();
                Wish::Back(own.encode().join(self.progress.host.encode()), Parity::Good)
            }
            Stage::Identifying => Wish::message(Message::Identify),
        }
    }

    fn address(&self) -> StationAddress {
        self.below.address()
    }

    fn chosen(&mut self, address: StationAddress, atn: bool) -> bool {
        self.standing() == Stage::Through && self.below.chosen(address, atn)
    }

    fn told(&mut self, sent: u8) {
        match self.standing() {
            Stage::Through => self.pass(sent),
            Stage::Saving => self.progress.stage = Stage::Disconnecting,
            Stage::Disconnecting => self.progress.stage = Stage::Leaving,
            Stage::Leaving => self.progress.stage = Stage::Returning,
            Stage::Returning => self.progress.stage = Stage::Identifying,
            Stage::Identifying => {
                self.progress.stage = Stage::Through;
                self.progress.passed = 0;
            }
        }
    }
}

// What waits is what waits below.
impl<S: Tally> Tally for Breaker<S> {
    fn waiting(&self) -> usize {
        self.below.waiting()
    }
}
