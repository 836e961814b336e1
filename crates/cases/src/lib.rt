// The worked cases, as one theorem about the definitions that the contracts of the calls use.
#![tactic(auto)]

ghost use Rattle.std.specs.Prelude.{[], ◌∷◌, ◌≡◌};
ghost use Rattle.chip.specs.Outcomes.{made_new};
ghost use Rattle.chip.specs.Reads.{reads};
ghost use Rattle.cases.specs.Cases.{WorkedCases};

use bus::address::StationAddress;
use chip::chip::Ncr5385e;
use registers::register::Register;

// What a new chip with ID 7 shows of Auxiliary Status, ID, Interrupt, Source ID and Diagnostic Status; and with it stand all
// the worked cases.
pub fn worked_cases() -> [u8; 5]
    ensures shown { result ≡ 2 ∷ 7 ∷ 0 ∷ 7 ∷ 128 ∷ [] }
    ensures cases { WorkedCases }
{
    let status = shown(Register::AuxiliaryStatus as u8);
    let id = shown(Register::Id as u8);
    let interrupt = shown(Register::Interrupt as u8);
    let source = shown(Register::SourceId as u8);
    let diagnostic = shown(Register::DiagnosticStatus as u8);
    [status, id, interrupt, source, diagnostic]
}

// What the register at an address shows of a new chip.
fn shown(address: u8) -> u8
    ensures { result ≡ (reads (made_new 7) address).answer.value }
{
    let mut chip = Ncr5385e::new(StationAddress::new(7));
    chip.read(address).answer.value
}
