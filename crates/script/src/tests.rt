// Tables of rows with what becomes of them.
use super::record::Record;
use super::row::{Row, check as check_chain};
use super::script::Script;
use bus::address::StationAddress;
use bus::station::Station;
use chain::refusal::ChainRefusal;
use std::alloc::{AllocError, Global};
use std::test::Fail;

fn row(kind: u8, phase: u8, byte: u8, parity: u8, next: u32) -> Row {
    Row {
        kind,
        phase,
        byte,
        parity,
        next,
    }
}

// The number of the refusal, zero where there is a record.
fn refusal(row: Row) -> u8 {
    Record::try_from(row).err().map_or(0, u8::from)
}

#[test]
fn rows_make_records(rt: HostRuntime) {
    let cases = [
        (row(0, 0, 0, 0, 0), 0),
        (row(4, 7, 255, 1, 4_294_967_295), 0),
        (row(5, 0, 0, 0, 0), 10),
        (row(5, 8, 0, 2, 0), 10),
        (row(255, 0, 0, 0, 0), 10),
        (row(0, 8, 0, 0, 0), 11),
        (row(4, 8, 0, 2, 0), 11),
        (row(3, 255, 0, 1, 0), 11),
        (row(1, 7, 0, 2, 0), 12),
        (row(0, 0, 0, 255, 0), 12),
    ];
    for (row, expected) in cases {
        assert_eq!(rt; refusal(row), expected);
    }
}

fn table(heap: Global, nexts: &[u32]) -> Result<Vec<Row>, AllocError> {
    nexts
        .iter()
        .map(|next| row(0, 0, 0, 0, *next))
        .collect(heap)
}

// How many records the chain has, and zero; or zero, and the record that ends it wrongly.
fn verdict(rows: &[Row]) -> (usize, usize) {
    match check_chain(rows) {
        Ok(records) => (records, 0),
        Err(ChainRefusal::WrongNext(record)) => (0, record),
    }
}

#[test]
fn chains_are_counted_or_refused(rt: HostRuntime) -> Result<(), Fail> {
    let heap = rt.alloc();
    let cases: [(&[u32], (usize, usize)); 10] = [
        (&[], (0, 0)),
        (&[0], (1, 0)),
        (&[1], (0, 1)),
        (&[2], (0, 1)),
        (&[2, 0], (2, 0)),
        (&[2, 1], (0, 2)),
        (&[2, 2], (0, 2)),
        (&[3, 9, 0], (2, 0)),
        (&[2, 4, 1, 5, 0], (4, 0)),
        (&[2, 4, 0, 6, 0], (0, 4)),
    ];
    for (nexts, expected) in cases {
        let rows = table(heap, nexts)?;
        assert_eq!(rt; verdict(rows.as_slice()), expected);
    }
    Ok(())
}

#[test]
fn only_4096_rows_count(rt: HostRuntime) -> Result<(), Fail> {
    let mut rows = Vec::new(rt.alloc());
    for next in 2..4098u32 {
        rows.push(row(3, 4, 0, 0, next))?;
    }
    assert_eq!(rt; verdict(rows.as_slice()), (0, 4096));
    rows.push(row(3, 4, 0, 0, 0))?;
    assert_eq!(rt;
        verdict(rows.as_slice()),
        (0, 4096),
        "row 4097 is there and does not count"
    );
    Ok(())
}

#[test]
fn a_script_is_played(rt: HostRuntime) {
    // a bad row is Off; record 4 is passed over; record 6 ends the chain wrongly
    let rows = [
        row(0, 0, 0, 0, 2),
        row(3, 4, 65, 0, 3),
        row(9, 4, 66, 0, 5),
        row(3, 4, 67, 0, 5),
        row(2, 4, 0, 0, 6),
        row(4, 0, 0, 0, 6),
    ];
    let (own, other) = (StationAddress::new(10), StationAddress::new(3));
    let mut script = Script::new(&rows, own);
    script.told(1);
    assert_eq!(rt; script.record_number(), Some(1), "told on Off");
    assert_eq!(rt; script.chosen(other, false), false);
    assert_eq!(rt;
        script.chosen(StationAddress::new(2), false),
        true,
        "10 is taken mod 8"
    );
    assert_eq!(rt; script.wish().data_in(), Some(65));
    assert_eq!(rt; script.chosen(own, false), false, "chosen while it wishes");
    script.told(0);
    assert_eq!(rt;
        (script.record_number(), script.wish().kind()),
        (Some(3), 0)
    );
    assert_eq!(rt; script.chosen(own, true), true);
    assert_eq!(rt;
        (script.record_number(), script.wish().kind()),
        (Some(5), 2)
    );
    script.told(0);
    assert_eq!(rt;
        (script.record_number(), script.wish().kind()),
        (Some(6), 4)
    );
    script.told(0);
    assert_eq!(rt;
        (script.record_number(), script.wish().kind()),
        (None, 0),
        "the end"
    );
    assert_eq!(rt; script.chosen(own, false), true);
    assert_eq!(rt; script.wish().kind(), 4, "one Go");
    script.told(0);
    assert_eq!(rt; script.wish().kind(), 0);
}
