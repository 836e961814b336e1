// The messages that stations send in the phase Message In.
ghost use Rattle.std.specs.Prelude.{◌≡◌, Some};
ghost use Rattle.bus.specs.Messages.{message_name, MessageByte, MessageOf};

use std::fmt;
use thiserror::Error;

// A message of one byte.
#[derive(Clone, Copy, Debug, PartialEq, Eq)]
pub enum Message {
    CommandComplete = 0x00,
    SaveDataPointer = 0x02,
    Disconnect = 0x04,
    Identify = 0x80,
}

// A byte that is none of the messages.
#[derive(Clone, Copy, Debug, PartialEq, Eq, Error)]
#[error("{0:02x}h is no message that a station sends")]
pub struct NoSuchMessage(pub u8);

impl Message {
    pub fn name(self) -> &'static str
        ensures { result.now ≡ message_name self }
    {
        match self {
            Message::CommandComplete => "Command Complete",
            Message::SaveDataPointer => "Save Data Pointer",
            Message::Disconnect => "Disconnect",
            Message::Identify => "Identify",
        }
    }
}

impl From<Message> for u8 {
    ghost from_gives = { MessageByte };

    fn from(message: Message) -> u8 {
        message as u8
    }
}

impl TryFrom<u8> for Message {
    type Error = NoSuchMessage;

    ghost try_from_gives = { MessageOf };

    fn try_from(byte: u8) -> Result<Message, NoSuchMessage> {
        match byte {
            0x00 => Ok(Message::CommandComplete),
            0x02 => Ok(Message::SaveDataPointer),
            0x04 => Ok(Message::Disconnect),
            0x80 => Ok(Message::Identify),
            _ => Err(NoSuchMessage(byte)),
        }
    }
}

impl fmt::Display for Message {
    ghost output = { λ m. Some (message_name m) };

    fn fmt<W: fmt::Write>(&self, f: &mut fmt::Formatter<W>) -> fmt::Result {
        f.write_str(self.name())
    }
}
