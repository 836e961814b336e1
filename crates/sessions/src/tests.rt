// Each session is a table: a call, and the refusal, the value, the lines and the loss that it answers.
use bus::address::StationAddress;
use bus::station::Station;
use drive::drive::Drive;
use registers::call::Call;
use registers::call::Call::{DmaRead, DmaWrite, Read, Reset, Tick, Turn, Write};
use script::row::Row;
use script::script::Script;
use scsi_string::ScsiString;
use std::process::Abort;

// A call, and what it answers: refusal, value, lines, lost.
type Expected = (Call, (u8, u8, u8, u8));

fn session<S: Station>(rt: &impl Abort, string: &mut ScsiString<S>, table: &[Expected]) {
    for (call, expected) in table {
        let answer = string.make(*call);
        assert_eq!(rt;
            (answer.refusal, answer.value, answer.lines, answer.lost),
            *expected
        );
    }
}

fn over<'a>(rows: &'a [Row], address: u8) -> ScsiString<Script<'a>> {
    ScsiString::new(
        StationAddress::new(7),
        Script::new(rows, StationAddress::new(address)),
    )
}

fn row(kind: u8, phase: u8, byte: u8, next: u32) -> Row {
    Row {
        kind,
        phase,
        byte,
        parity: 0,
        next,
    }
}

#[test]
fn a_new_chip(rt: HostRuntime) {
    let mut string = over(&[], 3);
    session(
        &rt,
        &mut string,
        &[
            (Read(4), (0, 0x02, 0, 0)),
            (Read(5), (0, 0x07, 0, 0)),
            (Read(6), (0, 0x00, 0, 0)),
            (Read(7), (0, 0x07, 0, 0)),
            (Read(9), (0, 0x80, 0, 0)),
            (Read(1), (0, 0, 0, 0)),
            (Read(0), (6, 0, 0, 0)),
            (Read(8), (1, 0, 0, 0)),
            (Read(15), (1, 0, 0, 0)),
            (Write(4, 1), (2, 0, 0, 0)),
            (Write(10, 1), (1, 0, 0, 0)),
            (Write(0, 1), (6, 0, 0, 0)),
            (DmaRead, (7, 0, 0, 0)),
            (DmaWrite(1), (7, 0, 0, 0)),
            (Write(2, 0xff), (0, 0, 0, 0)),
            (Read(2), (0, 7, 0, 0)),
            (Write(12, 1), (0, 0, 0, 0)),
            (Write(13, 2), (0, 0, 0, 0)),
            (Write(14, 3), (0, 0, 0, 0)),
            (Read(12), (0, 1, 0, 0)),
            (Read(13), (0, 2, 0, 0)),
            (Read(14), (0, 3, 0, 0)),
            (Read(4), (0, 0, 0, 0)),
            (Write(1, 0x0a), (0, 0, 1, 0)),
            (Read(6), (0, 0x40, 0, 0)),
        ],
    );
}

#[test]
fn nobody_answers(rt: HostRuntime) {
    let rows = [row(0, 0, 0, 0)];
    let mut string = over(&rows, 3);
    session(
        &rt,
        &mut string,
        &[
            (Write(3, 2), (0, 0, 0, 0)),
            (Write(14, 1), (0, 0, 0, 0)),
            (Write(1, 0x08), (0, 0, 0, 0)),
            (Write(3, 2), (5, 0, 0, 0)),
            (Write(1, 0x08), (5, 0, 0, 0)),
            (Turn, (0, 0, 4, 0)),
            (Turn, (0, 0, 4, 0)),
            (Read(1), (0, 0x08, 4, 0)),
            (Tick, (0, 0, 1, 0)),
            (Write(1, 0x08), (4, 0, 1, 0)),
            (Read(6), (0, 0x04, 0, 0)),
            (Read(1), (0, 0, 0, 0)),
            (Write(1, 0x08), (0, 0, 0, 0)),
            (Turn, (0, 0, 4, 0)),
            (Tick, (0, 0, 4, 0)),
            (Tick, (0, 0, 4, 0)),
            (Write(1, 0x02), (0, 0, 0, 0)),
            (Read(4), (0, 0x06, 0, 0)),
        ],
    );
}

#[test]
fn a_drive_asks_for_a_command(rt: HostRuntime) {
    let image = [0u8; 512];
    let mut string = ScsiString::new(
        StationAddress::new(7),
        Drive::new(&image, StationAddress::new(2)),
    );
    session(
        &rt,
        &mut string,
        &[
            (Write(3, 2), (0, 0, 0, 0)),
            (Write(1, 0x09), (0, 0, 0, 0)),
            (Turn, (0, 0, 0, 0)),
            (Turn, (0, 0, 17, 0)),
            (Read(6), (0, 0x01, 16, 0)),
            (Turn, (0, 0, 17, 0)),
            (Read(4), (0, 0x12, 17, 0)),
            (Read(6), (0, 0x02, 16, 0)),
            (Write(14, 6), (0, 0, 16, 0)),
            (Write(1, 0x94), (0, 0, 18, 0)),
            (Write(0, 0), (7, 0, 18, 0)),
            (DmaRead, (6, 0, 18, 0)),
            (DmaWrite(0), (0, 0, 16, 0)),
            (DmaWrite(0), (6, 0, 16, 0)),
            (Turn, (0, 0, 18, 0)),
            (Reset, (0, 0, 0, 0)),
        ],
    );
}

// The station is chosen, and asks for a phase.
fn connect<S: Station>(rt: &impl Abort, string: &mut ScsiString<S>) {
    session(
        rt,
        string,
        &[
            (Write(3, 2), (0, 0, 0, 0)),
            (Write(1, 0x09), (0, 0, 0, 0)),
            (Turn, (0, 0, 0, 0)),
            (Turn, (0, 0, 17, 0)),
            (Read(6), (0, 0x01, 16, 0)),
            (Turn, (0, 0, 17, 0)),
            (Read(6), (0, 0x02, 16, 0)),
        ],
    );
}

#[test]
fn two_bytes_are_held(rt: HostRuntime) {
    let rows = [
        row(0, 0, 0, 2),
        row(3, 4, 65, 3),
        row(3, 4, 66, 4),
        row(3, 4, 67, 0),
    ];
    let mut string = over(&rows, 2);
    connect(&rt, &mut string);
    session(
        &rt,
        &mut string,
        &[
            (Write(14, 3), (0, 0, 16, 0)),
            (Write(1, 0x14), (0, 0, 16, 0)),
            (Turn, (0, 0, 16, 0)),
            (Turn, (0, 0, 16, 0)),
            (Turn, (0, 0, 16, 0)),
            (Read(4), (0, 0xa0, 16, 0)),
            (Write(1, 0x00), (0, 0, 0, 2)),
        ],
    );
    assert_eq!(rt;
        string.into_station().wish().data_in(),
        Some(67),
        "one waits"
    );
}

#[test]
fn bytes_are_read_in_order(rt: HostRuntime) {
    let rows = [
        row(0, 0, 0, 2),
        row(3, 4, 65, 3),
        row(3, 4, 66, 4),
        row(4, 0, 0, 0),
    ];
    let mut string = over(&rows, 2);
    connect(&rt, &mut string);
    session(
        &rt,
        &mut string,
        &[
            (Write(14, 9), (0, 0, 16, 0)),
            (Write(1, 0x14), (0, 0, 16, 0)),
            (Turn, (0, 0, 16, 0)),
            (Turn, (0, 0, 16, 0)),
            (Turn, (0, 0, 16, 0)),
            (Read(0), (0, 65, 16, 0)),
            (Turn, (0, 0, 16, 0)),
            (Read(0), (0, 66, 16, 0)),
            (Turn, (0, 0, 1, 0)),
            (Read(6), (0, 0x04, 0, 0)),
            (Read(14), (0, 7, 0, 0)),
        ],
    );
}

#[test]
fn a_counter_of_zero_moves_nothing(rt: HostRuntime) {
    let rows = [row(0, 0, 0, 2), row(3, 4, 65, 0)];
    let mut string = over(&rows, 2);
    connect(&rt, &mut string);
    session(
        &rt,
        &mut string,
        &[
            (Write(1, 0x14), (0, 0, 16, 0)),
            (Turn, (0, 0, 17, 0)),
            (Read(6), (0, 0x02, 16, 0)),
            (Read(0), (6, 0, 16, 0)),
            (Write(1, 0x55), (0, 0, 16, 0)),
            (Turn, (0, 0, 16, 1)),
            (Write(1, 0x05), (0, 0, 0, 0)),
            (Turn, (3, 0, 0, 0)),
            (Read(4), (3, 0, 0, 0)),
            (Write(15, 0), (3, 0, 0, 0)),
            (Write(1, 0xe0), (0, 0, 0, 0)),
            (Read(4), (0, 0x02, 0, 0)),
        ],
    );
}

#[test]
fn a_message_leaves_ack_on(rt: HostRuntime) {
    let rows = [row(0, 0, 0, 2), row(3, 7, 0x80, 3), row(4, 0, 0, 0)];
    let mut string = over(&rows, 2);
    connect(&rt, &mut string);
    session(
        &rt,
        &mut string,
        &[
            (Write(1, 0x54), (0, 0, 16, 0)),
            (Turn, (0, 0, 24, 0)),
            (Read(4), (0, 0xba, 24, 0)),
            (Turn, (0, 0, 24, 0)),
            (Read(0), (0, 0x80, 24, 0)),
            (Turn, (0, 0, 25, 0)),
            (Read(6), (0, 0x01, 24, 0)),
            (Turn, (0, 0, 24, 0)),
            (Write(1, 0x04), (0, 0, 16, 0)),
            (Turn, (0, 0, 1, 0)),
            (Read(6), (0, 0x04, 0, 0)),
        ],
    );
}

// What Source ID shows after a Back with this ID byte.
fn source_after(id: u8) -> u8 {
    let rows = [row(1, 0, id, 0)];
    let mut string = over(&rows, 2);
    string.write(2, 2);
    string.turn();
    string.read(7).value
}

#[test]
fn reselections(rt: HostRuntime) {
    let cases = [
        (0x84, 0x82),
        (0x80, 0x07),
        (0x86, 0x07),
        (0x04, 0x07),
        (0xc0, 0x86),
        (0x81, 0x80),
    ];
    for (id, source) in cases {
        assert_eq!(rt; source_after(id), source);
    }
}

#[test]
fn the_calls_are_what_make_makes(rt: HostRuntime) {
    let rows = [row(0, 0, 0, 2), row(3, 4, 65, 0)];
    let (mut named, mut made) = (over(&rows, 2), over(&rows, 2));
    connect(&rt, &mut named);
    connect(&rt, &mut made);
    assert_eq!(rt; named.write(14, 1), made.make(Write(14, 1)));
    assert_eq!(rt; named.write(1, 0x94), made.make(Write(1, 0x94)));
    assert_eq!(rt; named.turn(), made.make(Turn));
    assert_eq!(rt; named.tick(), made.make(Tick));
    let byte = named.dma_read();
    assert_eq!(rt; (byte, byte.value), (made.make(DmaRead), 65));
    assert_eq!(rt; named.dma_write(1), made.make(DmaWrite(1)));
    assert_eq!(rt; named.read(4), made.make(Read(4)));
    assert_eq!(rt; named.reset(), made.make(Reset));
    assert_eq!(rt; named.read(7), made.make(Read(7)));
}
