// What is kept of a string: numbers alone, with C's layout, since a host that is not written in Rattle keeps them. A flag is
// 0 or 1, and what is not in use is zero.
use chip::chip::Registers;

#[repr(C)]
#[derive(Clone, Copy, Debug, PartialEq, Eq)]
pub struct SavedFlags {
    pub paused: u8,
    pub parity_error: u8,
    pub atn: u8,
    pub ack: u8,
}

// How many bytes are received, and these, oldest first.
#[repr(C)]
#[derive(Clone, Copy, Debug, Default, PartialEq, Eq)]
pub struct SavedReceived {
    pub count: u8,
    pub first: u8,
    pub second: u8,
}

// Whether a byte is written (1) or not (0), that byte, and the phase for which it was.
#[repr(C)]
#[derive(Clone, Copy, Debug, Default, PartialEq, Eq)]
pub struct SavedWritten {
    pub count: u8,
    pub byte: u8,
    pub phase: u8,
}

#[repr(C)]
#[derive(Clone, Copy, Debug, PartialEq, Eq)]
pub struct SavedChip {
    pub registers: Registers,
    pub id: u8,
    // 0 idle, 1 arbitrating, 2 selecting, 3 waiting, 4 asked, 5 transferring, 6 disabled
    pub state: u8,
    pub latched: u8,
    pub single: u8,
    pub flags: SavedFlags,
    pub received: SavedReceived,
    pub written: SavedWritten,
}

// How far a drive is: 0 idle, 1 a message is due, 2 a command comes in, 3 an answer goes out, 4 Command Complete is due,
// 5 it leaves. `taken` and `bytes` are of the command, the others of the answer.
#[repr(C)]
#[derive(Clone, Copy, Debug, PartialEq, Eq)]
pub struct SavedDrive {
    pub first: u32,
    pub sent: u32,
    pub count: u16,
    pub stage: u8,
    pub taken: u8,
    pub status: u8,
    pub bytes: [u8; 6],
}

// Where a script stands: 0 at the record of this number, 1 at its end, 2 at the end and leaving.
#[repr(C)]
#[derive(Clone, Copy, Debug, PartialEq, Eq)]
pub struct SavedScript {
    pub number: u64,
    pub place: u8,
}

// How far a breaker is: 0 there is no break, 1 to 5 its steps. With `after` zero it never breaks.
#[repr(C)]
#[derive(Clone, Copy, Debug, PartialEq, Eq)]
pub struct SavedBreaker {
    pub after: u16,
    pub passed: u16,
    pub host: u8,
    pub stage: u8,
}
