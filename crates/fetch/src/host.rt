// The host: a driver that waits for interrupts, and moves bytes between them.
use super::failure::Failure;
use super::order::{Request, Way};
use bus::message::Message;
use bus::phase::Phase;
use bus::station::Station;
use bus::status::Status;
use registers::answer::{Answer, CONNECTED, INT};
use registers::cause::Cause;
use registers::command::Code;
use registers::register::Register;
use scsi_string::ScsiString;
use std::alloc::Global;
use std::io::Write;
use std::iter::Peekable;
use std::{array, io};

// The host's own address.
pub const HOST: u8 = 7;

// Commands, and what can be added to them.
const MESSAGE_ACCEPTED: u8 = Code::MessageAccepted as u8;

const SELECT_WITHOUT_ATN: u8 = Code::Select as u8;

const TRANSFER_INFO: u8 = Code::TransferInfo as u8;

const SINGLE_BYTE: u8 = 0x40;

const DMA: u8 = 0x80;

// Parity and Reselect Enable.
const ENABLES: u8 = 0x06;

// A selection is given so many ticks, one after each turn.
const SELECTION_TICKS: u32 = 16;

// What the drive has sent: the record, of which so many bytes are told, and the last status and message.
#[derive(Drop)]
struct Received {
    record: Vec<u8>,
    told: usize,
    status: Option<u8>,
    message: Option<u8>,
}

#[derive(Drop)]
pub struct Host<S> {
    string: ScsiString<S>,
    way: Way,
    request: Request,
    // the bytes of the command that the chip has not taken yet
    unsent: Peekable<array::IntoIter<u8, 6>>,
    received: Received,
    chosen: bool,
}

fn status_name(status: u8) -> &'static str {
    Status::try_from(status).map_or("unknown", |status| status.name())
}

impl Received {
    fn new(heap: Global) -> Self {
        Received {
            record: Vec::new(heap),
            told: 0,
            status: None,
            message: None,
        }
    }

    // Puts a byte where its phase says.
    fn put<W: Write>(&mut self, out: &mut W, phase: u8, byte: u8) -> Result<(), Failure> {
        match Phase::try_from(phase) {
            Ok(Phase::DataIn) => self.record.push(byte)?,
            Ok(Phase::Status) => {
                self.status = Some(byte);
                let name = status_name(byte);
                writeln!(out, "    status {byte:02x}h, {name}")?;
            }
            _ => {
                self.message = Some(byte);
                let name = Message::try_from(byte).map_or("unknown", |message| message.name());
                writeln!(out, "    message {byte:02x}h, {name}")?;
            }
        }
        Ok(())
    }

    // Tells of the data since the last interrupt.
    fn tell<W: Write>(&mut self, out: &mut W) -> io::Result<()> {
        let now = self.record.len();
        if now > self.told {
            let run = now - self.told;
            writeln!(out, "    {run} bytes in Data In")?;
        }
        self.told = now;
        Ok(())
    }
}

impl<S: Station> Host<S> {
    pub fn new(heap: Global, string: ScsiString<S>, request: Request, way: Way) -> Self {
        Host {
            string,
            way,
            request,
            unsent: request.command().into_iter().peekable(),
            received: Received::new(heap),
            chosen: false,
        }
    }

    pub fn record(&self) -> &[u8] {
        self.received.record.as_slice()
    }

    // From the selection to the drive's letting go after its last message.
    pub fn fetch<W: Write>(&mut self, out: &mut W) -> Result<(), Failure> {
        let turns = self.request.turns();
        self.select(out)?;
        for _ in 0..turns {
            self.feed();
            let answer = self.string.turn();
            self.drain(out)?;
            if answer.lines & INT != 0 {
                if self.serve(out)? {
                    return self.judge();
                }
            } else if answer.lines & CONNECTED == 0 {
                let _ = self.string.tick();
            }
        }
        Err(Failure::TurnsSpent(turns))
    }

    fn read(&mut self, register: Register) -> Answer {
        self.string.read(u8::from(register))
    }

    fn write(&mut self, register: Register, value: u8) -> Answer {
        self.string.write(u8::from(register), value)
    }

    fn select<W: Write>(&mut self, out: &mut W) -> io::Result<()> {
        let address = self.request.address;
        let way = self.way;
        self.write(Register::Control, ENABLES);
        self.write(Register::DestinationId, address);
        self.set_counter(SELECTION_TICKS);
        self.write(Register::Command, SELECT_WITHOUT_ATN);
        writeln!(
            out,
            "selecting station {address} without ATN, data by {way}"
        )
    }

    fn set_counter(&mut self, count: u32) {
        let [_, high, middle, low] = count.to_be_bytes();
        self.write(Register::CounterHigh, high);
        self.write(Register::CounterMiddle, middle);
        self.write(Register::CounterLow, low);
    }

    // Starts to move so many bytes of data.
    fn transfer(&mut self, count: u32) {
        self.set_counter(count);
        let command = match self.way {
            Way::Pio => TRANSFER_INFO,
            Way::Dma => TRANSFER_INFO | DMA,
        };
        self.write(Register::Command, command);
    }

    // Gives the chip the next byte of the command, if it takes one.
    fn feed(&mut self) {
        let Some(byte) = self.unsent.peek().copied() else {
            return;
        };
        let answer = match self.way {
            Way::Pio => self.write(Register::Data, byte),
            Way::Dma => self.string.dma_write(byte),
        };
        if answer.refusal == 0 {
            let _ = self.unsent.next();
        }
    }

    // A byte that the chip has received; messages and the status are never moved by DMA.
    fn receive(&mut self) -> Answer {
        if self.way == Way::Dma {
            let answer = self.string.dma_read();
            if answer.refusal == 0 {
                return answer;
            }
        }
        self.read(Register::Data)
    }

    // Reads the bytes that the chip holds, two at most.
    fn drain<W: Write>(&mut self, out: &mut W) -> Result<(), Failure> {
        for _ in 0..2 {
            let answer = self.receive();
            if answer.refusal != 0 {
                break;
            }
            self.received.put(out, answer.phase, answer.value)?;
        }
        Ok(())
    }

    // Serves one interrupt; true where the drive has let go for good.
    fn serve<W: Write>(&mut self, out: &mut W) -> Result<bool, Failure> {
        let status = self.read(Register::AuxiliaryStatus).value;
        let number = self.read(Register::Interrupt).value;
        let cause = Cause::try_from(number).ok();
        let name = cause.map_or("unknown", |cause| cause.name());
        self.received.tell(out)?;
        write!(out, "INT {number:02x}h, {name}")?;
        match cause {
            Some(Cause::FunctionComplete) => self.complete(out)?,
            Some(Cause::BusService) => self.start(out, Phase::try_from(status / 8 % 8).unwrap())?,
            Some(Cause::Disconnected) => return self.let_go(out),
            Some(Cause::Reselected) => self.reselected(out)?,
            Some(Cause::InvalidCommand) | None => return Err(Failure::Interrupt),
        }
        Ok(false)
    }

    // The selection is done, or a message was read and ACK is on.
    fn complete<W: Write>(&mut self, out: &mut W) -> io::Result<()> {
        if self.chosen {
            self.write(Register::Command, MESSAGE_ACCEPTED);
            return writeln!(out, ": message accepted");
        }
        self.chosen = true;
        let address = self.request.address;
        writeln!(out, ": station {address} is connected")
    }

    // The drive asks for a phase.
    fn start<W: Write>(&mut self, out: &mut W, phase: Phase) -> Result<(), Failure> {
        writeln!(out, ": {phase}")?;
        match phase {
            Phase::Command => {
                let [a, b, c, d, e, f] = self.request.command();
                writeln!(
                    out,
                    "    sending {a:02x} {b:02x} {c:02x} {d:02x} {e:02x} {f:02x}"
                )?;
                self.transfer(6);
            }
            Phase::DataIn => {
                let left = self
                    .request
                    .bytes()
                    .saturating_sub(self.received.record.len());
                if left == 0 {
                    return Err(Failure::TooMuch);
                }
                self.transfer(left as u32);
            }
            Phase::Status | Phase::MessageIn => {
                self.write(Register::Command, TRANSFER_INFO | SINGLE_BYTE);
            }
            _ => return Err(Failure::Phase(phase)),
        }
        Ok(())
    }

    // The drive is off the cable: for good after Command Complete, and else for a while.
    fn let_go<W: Write>(&mut self, out: &mut W) -> Result<bool, Failure> {
        if !self.chosen {
            writeln!(out)?;
            return Err(Failure::NoStation(self.request.address));
        }
        let done = self.received.message == Some(u8::from(Message::CommandComplete));
        if done {
            writeln!(out, ": the drive is done")?;
        } else {
            writeln!(out, ": the drive lets go in mid-record")?;
        }
        Ok(done)
    }

    fn reselected<W: Write>(&mut self, out: &mut W) -> Result<(), Failure> {
        let source = self.read(Register::SourceId).value % 8;
        writeln!(out, " by station {source}")?;
        if source != self.request.address {
            return Err(Failure::AnotherStation);
        }
        Ok(())
    }

    // Whether the drive said that all is well, and sent as much as was asked for.
    fn judge(&self) -> Result<(), Failure> {
        let got = self.received.record.len();
        let expected = self.request.bytes();
        let status = self.received.status.ok_or(Failure::NoStatus)?;
        if status != u8::from(Status::Good) {
            return Err(Failure::Refused {
                status,
                name: status_name(status),
            });
        }
        if got != expected {
            return Err(Failure::Length { got, expected });
        }
        Ok(())
    }
}
