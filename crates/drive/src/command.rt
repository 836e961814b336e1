// What the drive does for a command.
ghost use Rattle.std.specs.Prelude.{◌≡◌};
ghost use Rattle.bus.specs.Statuses.{status_byte};
ghost use Rattle.drive.specs.Commands.{no_command, decoded, reply, reply_to};

use bus::status::Status;

// The bytes of a command that came so far. A buffer with its length, since a stage is a plain value, without a heap.
#[derive(Clone, Copy, Debug, PartialEq, Eq)]
pub struct CommandBlock {
    pub bytes: [u8; 6],
    pub taken: u8,
}

// What a command asks for.
#[derive(Clone, Copy, Debug, PartialEq, Eq)]
pub enum Command {
    TestUnitReady,
    // so many blocks, from the first on
    Read { first: u32, count: u16 },
    // any that the drive does not know
    Other,
}

// What the drive answers: so many blocks from the first on, and then the status. The status is a byte, since a saved state
// may hold any.
#[derive(Clone, Copy, Debug, PartialEq, Eq)]
pub struct Reply {
    pub first: u32,
    pub count: u16,
    pub status: u8,
}

impl CommandBlock {
    // No byte came yet.
    pub fn new() -> Self
        ensures { result ≡ no_command }
    {
        CommandBlock {
            bytes: [0; 6],
            taken: 0,
        }
    }
}

// The meaning of six bytes. A READ has 21 bits of block number, and a count of zero stands for 256.
impl From<[u8; 6]> for Command {
    ghost from_gives = { λ bytes c. c ≡ decoded bytes };

    fn from(bytes: [u8; 6]) -> Command {
        match bytes {
            [0x00, ..] => Command::TestUnitReady,
            [0x08, high, middle, low, count, _] => Command::Read {
                first: u32::from_be_bytes([0, high % 32, middle, low]),
                count: if count == 0 { 256 } else { u16::from(count) },
            },
            _ => Command::Other,
        }
    }
}

impl Command {
    // What a drive with so many blocks answers.
    pub fn reply(self, blocks: usize) -> Reply
        ensures value { result ≡ reply_to blocks self }
    {
        match self {
            Command::TestUnitReady => Reply::of(0, 0, Status::Good),
            Command::Read { first, count } if first as usize + count as usize <= blocks => {
                Reply::of(first, count, Status::Good)
            }
            _ => Reply::of(0, 0, Status::CheckCondition),
        }
    }
}

impl Reply {
    fn of(first: u32, count: u16, status: Status) -> Self
        ensures { result ≡ reply first count (status_byte status) }
    {
        Reply {
            first,
            count,
            status: u8::from(status),
        }
    }
}
