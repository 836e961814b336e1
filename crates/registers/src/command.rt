// The commands of the chip, by their codes.
ghost use Rattle.std.specs.Prelude.{◌≡◌};
ghost use Rattle.registers.specs.Commands.{command_of, is_select, is_transfer};

// The codes that the chip has, as they are written to Command; Single Byte and DMA are bits beside them.
#[derive(Clone, Copy, Debug, PartialEq, Eq)]
pub enum Code {
    ChipReset = 0x00,
    Disconnect = 0x01,
    Pause = 0x02,
    SetAtn = 0x03,
    MessageAccepted = 0x04,
    ChipDisable = 0x05,
    SelectWithAtn = 0x08,
    Select = 0x09,
    TransferInfo = 0x14,
    TransferPad = 0x15,
}

// What a code orders.
#[derive(Clone, Copy, Debug, PartialEq, Eq)]
pub enum Command {
    ChipReset,
    Disconnect,
    Pause,
    SetAtn,
    MessageAccepted,
    ChipDisable,
    // Codes below 08h that do nothing.
    Unused,
    // With ATN or without.
    Select,
    // Info or Pad.
    Transfer,
    // Codes that the chip does not have. It takes them as an order all the same, and raises Invalid Command.
    Invalid,
}

impl Command {
    pub fn is_select(self) -> bool
        ensures { result ≡ is_select self }
    {
        self == Command::Select
    }

    pub fn is_transfer(self) -> bool
        ensures { result ≡ is_transfer self }
    {
        self == Command::Transfer
    }
}

// What a value written to Command orders; only its five lowest bits matter here.
impl From<u8> for Command {
    ghost from_gives = { λ x c. c ≡ command_of x };

    #[tactic(auto, unfolding(crate::specs::Commands::command_of))]
    fn from(value: u8) -> Command {
        match value & 31 {
            0 => Command::ChipReset,
            1 => Command::Disconnect,
            2 => Command::Pause,
            3 => Command::SetAtn,
            4 => Command::MessageAccepted,
            5 => Command::ChipDisable,
            6 | 7 => Command::Unused,
            8 | 9 => Command::Select,
            20 | 21 => Command::Transfer,
            _ => Command::Invalid,
        }
    }
}
