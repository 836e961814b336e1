// ID bytes as they are met on a cable.
use super::address::{IdByte, StationAddress};

// The other station's number, 8 for none.
fn other(bits: u8, own: u8) -> u8 {
    let named = IdByte::new(bits).decode(StationAddress::new(own));
    named.map_or(8, StationAddress::number)
}

#[test]
fn id_bytes_name_one_other_station(rt: HostRuntime) {
    let cases = [
        (0x84, 7, 2),
        (0x80, 7, 8),
        (0x86, 7, 8),
        (0x04, 7, 8),
        (0x00, 7, 8),
        (0xff, 7, 8),
        (0x81, 7, 0),
        (0x81, 0, 7),
        (0xc0, 6, 7),
        (0x03, 0, 1),
        (0x02, 0, 8),
        (0x10, 3, 8),
    ];
    for (bits, own, expected) in cases {
        assert_eq!(rt; other(bits, own), expected);
    }
}
