// The string: the chip and one station on its cable.
#![tactic(auto)]

ghost use Rattle.std.specs.Prelude.{◌≡◌, [], ◌+◌, ◌^◌, ◌<◌, ◌≤◌, length, set};
ghost use Rattle.chip.specs.Model.{model};
ghost use Rattle.chip.specs.Outcomes.{made_new};
ghost use Rattle.account.specs.Accounts.{Account, Makes, RunKeepsAccount};
ghost use Rattle.account.specs.Fates.{held, EveryFate};
ghost use Rattle.account.specs.Laws.{step_of, Laws};
ghost use Rattle.account.specs.Lines.{line};
ghost use Rattle.account.specs.Runs.{row_step, RunSays};
ghost use Rattle.account.specs.Steps.{heard, chosen_step, turn_step};
ghost use Rattle.scsi_string.specs.Strings.{values};

use bus::address::StationAddress;
use bus::station::{Station, Tally};
use chip::chip::Ncr5385e;
use registers::answer::{Answer, Reaction, Response};
use registers::call::{Call, CallRow, Ran, RunRefusal};

// How many calls a run makes at most.
pub const MOST_CALLS: usize = 65_536;

#[derive(Drop)]
pub struct ScsiString<S> {
    chip: Ncr5385e,
    station: S,
}

impl<S: Station> ScsiString<S> {
    // A new chip with this address, and any station. The laws are of every call of a string over such a station; and over
    // every history of calls each Data In byte that the station puts up is, once and in order, read, lost where an answer
    // says so and may, held in the chip, or waiting.
    pub fn new(address: StationAddress, station: S) -> Self
        ensures value { values result ≡ line (made_new address.number) station }
        ensures laws { Laws S.Station.meaning }
        ensures opens { Account S.Station.meaning (S.Station.meaning.waiting station) [] (values result) }
        ensures fates { EveryFate S.Station.meaning }
    {
        ScsiString::fresh(address, station)
    }

    fn fresh(address: StationAddress, station: S) -> Self
        ensures { values result ≡ line (made_new address.number) station }
    {
        ScsiString {
            chip: Ncr5385e::new(address),
            station,
        }
    }

    // A chip and a station as they are, to go on from there.
    pub fn from_parts(chip: Ncr5385e, station: S) -> Self
        ensures { values result ≡ line (model chip) station }
    {
        ScsiString { chip, station }
    }

    // The chip and the station, as they are now.
    pub fn into_parts(self) -> (Ncr5385e, S)
        ensures { result ≡ (self.chip, self.station) }
    {
        (self.chip, self.station)
    }

    // The station, as it is now.
    pub fn into_station(self) -> S
        ensures { result ≡ self.station }
    {
        self.into_parts().1
    }

    // The chip, to be looked at.
    pub fn chip(&self) -> Ncr5385e
        ensures { result ≡ self.now.chip }
    {
        let shown = self.chip;
        shown
    }

    // How many Data In bytes the chip holds for the host.
    pub fn held(&self) -> u8
        ensures { result ≡ length (held (values self.now).chip) }
    {
        self.chip.held_data()
    }

    // Makes a call. Inlined, with what it calls, so that each single call comes down to its own case.
    #[inline(always)]
    pub fn make(&mut self, call: Call) -> Answer
        ensures { Makes S.meaning call (values self.old) result (values self.new) }
    {
        self.step(call)
    }

    // The host reads a register.
    pub fn read(&mut self, address: u8) -> Answer
        ensures { Makes S.meaning (Call.Read address) (values self.old) result (values self.new) }
    {
        self.make(Call::Read(address))
    }

    // The host writes a register.
    pub fn write(&mut self, address: u8, value: u8) -> Answer
        ensures { Makes S.meaning (Call.Write address value) (values self.old) result (values self.new) }
    {
        self.make(Call::Write(address, value))
    }

    // The host's DMA reads a byte of data.
    pub fn dma_read(&mut self) -> Answer
        ensures { Makes S.meaning Call.DmaRead (values self.old) result (values self.new) }
    {
        self.make(Call::DmaRead)
    }

    // The host's DMA writes a byte of data.
    pub fn dma_write(&mut self, value: u8) -> Answer
        ensures { Makes S.meaning (Call.DmaWrite value) (values self.old) result (values self.new) }
    {
        self.make(Call::DmaWrite(value))
    }

    // 1,024 clocks of the chip have passed.
    pub fn tick(&mut self) -> Answer
        ensures { Makes S.meaning Call.Tick (values self.old) result (values self.new) }
    {
        self.make(Call::Tick)
    }

    // The cable may move: the chip looks at the station's wish.
    pub fn turn(&mut self) -> Answer
        ensures { Makes S.meaning Call.Turn (values self.old) result (values self.new) }
    {
        self.make(Call::Turn)
    }

    // The host pulls the chip's reset line.
    pub fn reset(&mut self) -> Answer
        ensures { Makes S.meaning Call.Reset (values self.old) result (values self.new) }
    {
        self.make(Call::Reset)
    }

    // Makes the calls in their order, and fills as many answers. It is refused where there are more than 65,536 calls, or
    // fewer answers than calls; then nothing changes. A run counts as its calls.
    pub fn run(&mut self, calls: &[CallRow], answers: &mut [Answer]) -> Result<Ran, RunRefusal>
        ensures says { RunSays S.meaning calls.now (values self.old) answers.old (values self.new) answers.new result }
        ensures fates { RunKeepsAccount S.meaning calls.now (values self.old) (values self.new) result }
    {
        self.run_steps(calls, answers)
    }

    fn run_steps(&mut self, calls: &[CallRow], answers: &mut [Answer]) -> Result<Ran, RunRefusal>
        ensures { RunSays S.meaning calls.now (values self.old) answers.old (values self.new) answers.new result }
    {
        if calls.len() > MOST_CALLS || answers.len() < calls.len() {
            return Err(RunRefusal::NoRoom);
        }
        let mut lost: u32 = 0;
        for (i, call) in calls.iter().enumerate() {
            lost = self.fill(answers, i, *call, lost);
        }
        Ok(Ran {
            calls: calls.len() as u32,
            lost,
        })
    }

    // Makes a call, puts its answer at a place, and adds up the bytes lost. By its index: a proof knows no element of what was
    // written through `iter_mut` and `zip`.
    fn fill(&mut self, answers: &mut [Answer], at: usize, call: CallRow, lost: u32) -> u32
        requires { (at < length answers.old) × (lost < 2 ^ 31) }
        ensures after { values self.new ≡ (row_step S.meaning call (values self.old)).left }
        ensures filled { answers.new ≡ set answers.old at (row_step S.meaning call (values self.old)).answer }
        ensures lost { result ≡ lost + (row_step S.meaning call (values self.old)).answer.lost }
        ensures bound { result ≤ lost + 255 }
    {
        let answer = self.make_row(call);
        answers[at] = answer;
        lost + u32::from(answer.lost)
    }

    // One call of a list; a row that names none is answered with its refusal.
    fn make_row(&mut self, row: CallRow) -> Answer
        ensures answer { result ≡ (row_step S.meaning row (values self.old)).answer }
        ensures after { values self.new ≡ (row_step S.meaning row (values self.old)).left }
    {
        match Call::try_from(row) {
            Ok(call) => self.step(call),
            Err(refusal) => Answer {
                refusal: refusal.into(),
                ..self.chip.quiet()
            },
        }
    }

    // The station hears of it in each case by itself, for speed: heard of in one place behind the cases, a call took 164
    // instructions, and 144 when each call had a function of its own.
    #[inline(always)]
    fn step(&mut self, call: Call) -> Answer
        ensures answer { result ≡ (step_of S.meaning call (values self.old)).answer }
        ensures after { values self.new ≡ (step_of S.meaning call (values self.old)).left }
    {
        match call {
            Call::Read(address) => {
                let response = self.chip.read(address);
                self.hear(response)
            }
            Call::Write(address, value) => {
                let response = self.chip.write(address, value);
                self.hear(response)
            }
            Call::DmaRead => {
                let response = self.chip.dma_read();
                self.hear(response)
            }
            Call::DmaWrite(value) => {
                let response = self.chip.dma_write(value);
                self.hear(response)
            }
            Call::Tick => {
                let response = self.chip.tick();
                self.hear(response)
            }
            Call::Turn => self.turn_step(),
            Call::Reset => {
                let response = self.chip.reset();
                self.hear(response)
            }
        }
    }

    fn turn_step(&mut self) -> Answer
        ensures answer { result ≡ (turn_step S.meaning (values self.old)).answer }
        ensures after { values self.new ≡ (turn_step S.meaning (values self.old)).left }
    {
        let wish = self.station.wish();
        let response = self.chip.turn(wish);
        match response.reaction {
            Reaction::Choose(destination, atn) => self.choose(destination, atn, response.answer),
            Reaction::Nothing | Reaction::Tell(_) => self.hear(response),
        }
    }

    // The station is told where the chip says so. Only a turn has it chosen.
    #[inline(always)]
    fn hear(&mut self, response: Response) -> Answer
        ensures answer { result ≡ response.answer }
        ensures after { values self.new ≡ line (values self.old).chip (heard S.meaning response.reaction self.old.station) }
    {
        match response.reaction {
            Reaction::Tell(byte) => self.station.told(byte),
            Reaction::Nothing | Reaction::Choose(_, _) => {}
        }
        response.answer
    }

    // The station is chosen; a yes is heard by the chip.
    fn choose(&mut self, destination: u8, atn: bool, unheard: Answer) -> Answer
        ensures answer { result ≡ (chosen_step S.meaning destination atn unheard (values self.old)).answer }
        ensures after { values self.new ≡ (chosen_step S.meaning destination atn unheard (values self.old)).left }
    {
        if self.station.chosen(StationAddress::new(destination), atn) {
            self.chip.hear_yes();
            return self.chip.quiet();
        }
        unheard
    }
}

impl<S: Tally> ScsiString<S> {
    // How many Data In bytes wait at the station.
    pub fn waiting(&self) -> usize
        ensures { result ≡ length (S.Station.meaning.waiting self.now.station) }
    {
        self.station.waiting()
    }
}
