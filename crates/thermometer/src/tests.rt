// A host reads the thermometer twice.
use super::Thermometer;
use bus::address::StationAddress;
use registers::answer::Answer;
use scsi_string::ScsiString;

// Selects station 3, takes one byte by a Transfer Info with Single Byte, and follows the station off the cable.
fn read_once(string: &mut ScsiString<Thermometer>) -> Answer {
    string.write(3, 3);
    string.write(1, 0x09);
    string.turn();
    string.turn();
    string.read(6);
    string.turn();
    string.read(6);
    string.write(1, 0x54);
    string.turn();
    let reading = string.read(0);
    string.turn();
    string.read(6);
    reading
}

#[test]
fn reads_one_after_the_other(rt: HostRuntime) {
    let station = Thermometer::new(StationAddress::new(3), 41);
    let mut string = ScsiString::new(StationAddress::new(7), station);
    let first = read_once(&mut string);
    assert_eq!(rt; (first.refusal, first.value, first.phase), (0, 41, 4));
    string.turn();
    let second = read_once(&mut string);
    assert_eq!(rt; (second.refusal, second.value, second.phase), (0, 42, 4));
}
