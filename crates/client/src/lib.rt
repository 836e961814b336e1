// A client of the string that knows its calls by their contracts alone. Thirteen calls of every kind and a run stand one
// behind the other; and from what the contracts say follows the fate of every byte over all of them.
#![tactic(auto)]

ghost use Rattle.std.specs.Prelude.{[], ◌∷◌, ◌++◌};
ghost use Rattle.account.specs.Accounts.{KeepsAccount};
ghost use Rattle.scsi_string.specs.Strings.{values};
ghost use Rattle.client.specs.Surveys.{Kept, calls_run, answers_run};

use bus::address::StationAddress;
use bus::station::Station;
use registers::answer::Answer;
use registers::call::{Call, CallRow, Ran, RunRefusal};
use registers::command::Code;
use registers::register::Register;
use scsi_string::ScsiString;

// The registers that the client uses.
const COMMAND: u8 = Register::Command as u8;

const DESTINATION: u8 = Register::DestinationId as u8;

const STATUS: u8 = Register::AuxiliaryStatus as u8;

const INTERRUPT: u8 = Register::Interrupt as u8;

const COUNTER_LOW: u8 = Register::CounterLow as u8;

// Select without ATN.
const SELECT: u8 = Code::Select as u8;

// What a survey finds: the string, and every answer.
#[derive(Drop)]
pub struct Findings<S> {
    pub string: ScsiString<S>,
    // The answers before the run.
    pub before: [Answer; 8],
    pub ran: Result<Ran, RunRefusal>,
    // The answers after it.
    pub after: [Answer; 5],
}

fn select<S: Station>(string: &mut ScsiString<S>) -> Answer
    ensures { KeepsAccount S.meaning (Call.Write 1 9) (values string.old) result (values string.new) }
{
    string.write(COMMAND, SELECT)
}

// Selects a station, runs the host's calls, and ends with a reset. Whatever the station does and the calls are, the calls
// made and their answers are these, in this order, and the account of every byte is kept.
pub fn survey<S: Station>(
    address: StationAddress,
    station: S,
    destination: u8,
    calls: &[CallRow],
    answers: &mut [Answer],
) -> Findings<S>
    ensures { Kept S.meaning station
        ((Call.Write 3 destination ∷ Call.Write 14 16 ∷ Call.Write 4 0 ∷ Call.Write 1 9 ∷ Call.Turn ∷ Call.Tick ∷ Call.Turn ∷ Call.Read 6 ∷ []) ++ (calls_run calls.now result.ran ++ (Call.DmaWrite 85 ∷ Call.DmaRead ∷ Call.Read 4 ∷ Call.Reset ∷ Call.Read 6 ∷ [])))
        (result.before ++ (answers_run calls.now answers.new result.ran ++ result.after))
        (values result.string) }
{
    let mut string = ScsiString::new(address, station);
    let destined = string.write(DESTINATION, destination);
    let limited = string.write(COUNTER_LOW, 16);
    // Auxiliary Status is only read: this is refused, and stands in the account like any other call.
    let refused = string.write(STATUS, 0);
    let selected = select(&mut string);
    let arbitrated = string.turn();
    let ticked = string.tick();
    let chosen = string.turn();
    let interrupt = string.read(INTERRUPT);
    let ran = string.run(calls, answers);
    let written = string.dma_write(0x55);
    let taken = string.dma_read();
    let status = string.read(STATUS);
    let reset = string.reset();
    let cleared = string.read(INTERRUPT);
    Findings {
        string,
        before: [
            destined, limited, refused, selected, arbitrated, ticked, chosen, interrupt,
        ],
        ran,
        after: [written, taken, status, reset, cleared],
    }
}
