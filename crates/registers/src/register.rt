// The registers of the chip, by their addresses.
ghost use Rattle.std.specs.Prelude.{◌≡◌, ◌↔◌, IsTrue};
ghost use Rattle.registers.specs.Registers.{register_at, AddressOf};

#[derive(Clone, Copy, Debug, PartialEq, Eq)]
pub enum Register {
    Data = 0,
    Command = 1,
    Control = 2,
    DestinationId = 3,
    AuxiliaryStatus = 4,
    Id = 5,
    Interrupt = 6,
    SourceId = 7,
    DiagnosticStatus = 9,
    CounterHigh = 12,
    CounterMiddle = 13,
    CounterLow = 14,
}

impl Register {
    // The register at an address, if there is one.
    #[tactic(auto, unfolding(crate::specs::Registers::register_at))]
    pub fn at(address: u8) -> Option<Self>
        ensures { result ≡ register_at address }
    {
        match address {
            0 => Some(Register::Data),
            1 => Some(Register::Command),
            2 => Some(Register::Control),
            3 => Some(Register::DestinationId),
            4 => Some(Register::AuxiliaryStatus),
            5 => Some(Register::Id),
            6 => Some(Register::Interrupt),
            7 => Some(Register::SourceId),
            9 => Some(Register::DiagnosticStatus),
            12 => Some(Register::CounterHigh),
            13 => Some(Register::CounterMiddle),
            14 => Some(Register::CounterLow),
            _ => None,
        }
    }

    pub fn is_data(self) -> bool
        ensures { IsTrue result ↔ (self ≡ Register.Data) }
    {
        self == Register::Data
    }
}

// The address of a register.
impl From<Register> for u8 {
    ghost from_gives = { AddressOf };

    #[tactic(auto, unfolding(crate::specs::Registers::register_at))]
    fn from(register: Register) -> u8 {
        register as u8
    }
}
