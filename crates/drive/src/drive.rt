// The drive.
ghost use Rattle.std.specs.Prelude.{◌≡◌};
ghost use Rattle.drive.specs.Drives.{store_of, received, next_stage, drive_meaning, DriveAt, IdleDrive};
ghost use Rattle.drive.specs.Services.{ServesAll, Edge};
ghost use Rattle.drive.specs.DriveLawful.{drive_lawful};

use super::command::{Command, CommandBlock};
use super::image::Image;
use super::sending::Sending;
use bus::address::StationAddress;
use bus::message::Message;
use bus::parity::Parity;
use bus::phase::Phase;
use bus::station::{Station, Tally};
use bus::wish::Wish;

// How far the drive is with a command.
#[derive(Clone, Copy, Debug, PartialEq, Eq)]
pub enum Stage {
    Idle,
    // It was chosen with ATN on: a message is due.
    MessageOut,
    // The bytes of the command come in.
    Command(CommandBlock),
    // The answer goes out, and its status follows.
    Reply(Sending),
    // The message Command Complete is due.
    Complete,
    // It drops BSY.
    Leaving,
}

#[derive(Drop)]
pub struct Drive<'a> {
    image: Image<'a>,
    address: StationAddress,
    stage: Stage,
}

impl<'a> Drive<'a> {
    // A drive off the cable. From its choosing to Off it serves any command of six bytes, and is then what it was.
    pub fn new(image: &'a [u8], address: StationAddress) -> Self
        ensures idle { IdleDrive image.now address result }
        ensures serves { ServesAll result }
        ensures edge { Edge image.now }
    {
        Drive::off(image, address)
    }

    fn off(image: &'a [u8], address: StationAddress) -> Self
        ensures { IdleDrive image.now address result }
    {
        Drive::resume(image, address, Stage::Idle)
    }

    // A drive as it was left at a stage, to go on from there.
    pub fn resume(image: &'a [u8], address: StationAddress, stage: Stage) -> Self
        ensures { DriveAt image.now address stage result }
    {
        Drive {
            image: Image::new(image),
            address,
            stage,
        }
    }

    // How far the drive is with a command.
    pub fn stage(&self) -> Stage
        ensures { result ≡ self.now.stage }
    {
        let reached = self.stage;
        reached
    }

    // After one more byte of a command, the sixth of which has it answered.
    fn receive(&self, mut command: CommandBlock, byte: u8) -> Stage
        ensures { result ≡ received (store_of self.now) command byte }
    {
        if command.taken < 5 {
            command.bytes[command.taken as usize] = byte;
            command.taken += 1;
            return Stage::Command(command);
        }
        command.bytes[5] = byte;
        let reply = Command::from(command.bytes).reply(self.image.blocks());
        Stage::Reply(Sending { reply, sent: 0 })
    }

    fn next_stage(&self, sent: u8) -> Stage
        ensures { result ≡ next_stage (store_of self.now) self.now.stage sent }
    {
        match self.stage {
            Stage::Idle => Stage::Idle,
            Stage::MessageOut => Stage::Command(CommandBlock::new()),
            Stage::Command(command) => self.receive(command, sent),
            Stage::Reply(sending) => match sending.due(self.image) {
                Some(_) => Stage::Reply(Sending {
                    sent: sending.sent + 1,
                    ..sending
                }),
                None => Stage::Complete,
            },
            Stage::Complete => Stage::Leaving,
            Stage::Leaving => Stage::Idle,
        }
    }
}

impl<'a> Station for Drive<'a> {
    ghost meaning = { drive_meaning };

    ghost lawful = { drive_lawful };

    fn wish(&self) -> Wish {
        match self.stage {
            Stage::Idle => Wish::Off,
            Stage::MessageOut => Wish::Req(Phase::MessageOut, 0, Parity::Good),
            Stage::Command(_) => Wish::Req(Phase::Command, 0, Parity::Good),
            Stage::Reply(sending) => match sending.due(self.image) {
                Some(byte) => Wish::Req(Phase::DataIn, byte, Parity::Good),
                None => Wish::Req(Phase::Status, sending.reply.status, Parity::Good),
            },
            Stage::Complete => Wish::message(Message::CommandComplete),
            Stage::Leaving => Wish::Go,
        }
    }

    fn address(&self) -> StationAddress {
        self.address
    }

    fn chosen(&mut self, address: StationAddress, atn: bool) -> bool {
        if !self.says_yes(address) {
            return false;
        }
        self.stage = if atn {
            Stage::MessageOut
        } else {
            Stage::Command(CommandBlock::new())
        };
        true
    }

    fn told(&mut self, sent: u8) {
        self.stage = self.next_stage(sent);
    }
}

// What is left of the answer.
impl<'a> Tally for Drive<'a> {
    fn waiting(&self) -> usize {
        match self.stage {
            Stage::Reply(sending) => sending.left(self.image),
            _ => 0,
        }
    }
}
