// The numbers of drives, scripts and breakers, and what stands at such numbers.
ghost use Rattle.std.specs.Prelude.{◌≡◌};
ghost use Rattle.saved.specs.Chips.{Unpacks};
ghost use Rattle.saved.specs.Stations.{plain, drive_numbers, script_numbers, Places, progress_numbers};

use super::numbers::{SavedBreaker, SavedDrive, SavedScript};
use super::refusal::NotSaved;
use breaker::{Progress, Stage as Break};
use bus::address::StationAddress;
use drive::command::{CommandBlock, Reply};
use drive::drive::Stage;
use drive::sending::Sending;
use script::row::Row;
use script::script::Place;

// The numbers of a stage that has none of its own.
fn plain(stage: u8) -> SavedDrive
    ensures { result ≡ plain stage }
{
    SavedDrive {
        first: 0,
        sent: 0,
        count: 0,
        stage,
        taken: 0,
        status: 0,
        bytes: [0; 6],
    }
}

// By how far the drive is with a command.
impl From<Stage> for SavedDrive {
    ghost from_gives = { λ stage saved. saved ≡ drive_numbers stage };

    fn from(stage: Stage) -> SavedDrive {
        match stage {
            Stage::Idle => plain(0),
            Stage::MessageOut => plain(1),
            Stage::Command(command) => {
                let bytes = command.bytes;
                SavedDrive {
                    taken: command.taken,
                    bytes,
                    ..plain(2)
                }
            }
            Stage::Reply(Sending { reply, sent }) => SavedDrive {
                first: reply.first,
                sent,
                count: reply.count,
                status: reply.status,
                ..plain(3)
            },
            Stage::Complete => plain(4),
            Stage::Leaving => plain(5),
        }
    }
}

// How far a drive with these numbers is, or an error where no drive has them.
impl TryFrom<SavedDrive> for Stage {
    type Error = NotSaved;

    ghost try_from_gives = { Unpacks drive_numbers };

    fn try_from(saved: SavedDrive) -> Result<Stage, NotSaved> {
        let stage = match saved.stage {
            0 => Stage::Idle,
            1 => Stage::MessageOut,
            2 => Stage::Command(CommandBlock {
                bytes: saved.bytes,
                taken: saved.taken,
            }),
            3 => Stage::Reply(Sending {
                reply: Reply {
                    first: saved.first,
                    count: saved.count,
                    status: saved.status,
                },
                sent: saved.sent,
            }),
            4 => Stage::Complete,
            5 => Stage::Leaving,
            _ => return Err(NotSaved),
        };
        // What is not in use is zero: these are the numbers of that very stage.
        if SavedDrive::from(stage) == saved {
            Ok(stage)
        } else {
            Err(NotSaved)
        }
    }
}

// By where the script stands.
impl From<Place> for SavedScript {
    ghost from_gives = { λ place saved. saved ≡ script_numbers place };

    fn from(place: Place) -> SavedScript {
        match place {
            Place::At(number, _) => SavedScript {
                number: number as u64,
                place: 0,
            },
            Place::End => SavedScript {
                number: 0,
                place: 1,
            },
            Place::Leaving => SavedScript {
                number: 0,
                place: 2,
            },
        }
    }
}

// Where a script over these rows stands with these numbers, or an error where none does. A function, since it needs the
// rows too.
pub fn place_of(saved: SavedScript, rows: &[Row]) -> Result<Place, NotSaved>
    ensures { Places rows.now saved result }
{
    let number = saved.number as usize;
    match saved.place {
        0 if number >= 1 && number <= rows.len() => Ok(Place::At(number, rows[number - 1])),
        1 if number == 0 => Ok(Place::End),
        2 if number == 0 => Ok(Place::Leaving),
        _ => Err(NotSaved),
    }
}

impl From<Progress> for SavedBreaker {
    ghost from_gives = { λ progress saved. saved ≡ progress_numbers progress };

    fn from(progress: Progress) -> SavedBreaker {
        SavedBreaker {
            after: progress.after,
            passed: progress.passed,
            host: progress.host.number(),
            stage: u8::from(progress.stage),
        }
    }
}

// How far a breaker with these numbers is, or an error where no breaker has them.
impl TryFrom<SavedBreaker> for Progress {
    type Error = NotSaved;

    ghost try_from_gives = { Unpacks progress_numbers };

    fn try_from(saved: SavedBreaker) -> Result<Progress, NotSaved> {
        Ok(Progress {
            after: saved.after,
            host: StationAddress::try_from(saved.host)?,
            passed: saved.passed,
            stage: Break::try_from(saved.stage)?,
        })
    }
}
