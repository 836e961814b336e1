// Tables of commands and images.
use super::command::Command;
use super::drive::Drive;
use super::image::Image;
use bus::address::StationAddress;
use bus::patient::attend;
use bus::phase::Phase;
use bus::station::Station;
use bus::wish::Wish;
use std::test::Fail;

#[test]
fn whole_blocks_count(rt: HostRuntime) -> Result<(), Fail> {
    let bytes = vec![in rt.alloc(); 7u8; 4097 * 512 + 3]?;
    let cases = [
        (0, 0),
        (511, 0),
        (512, 1),
        (513, 1),
        (1023, 1),
        (1024, 2),
        (4096 * 512, 4096),
        (4097 * 512 + 3, 4096),
    ];
    for (length, blocks) in cases {
        if length <= bytes.len() {
            let image = Image::new(&bytes.as_slice()[..length]);
            assert_eq!(rt; image.blocks(), blocks);
            assert_eq!(rt; image.byte(blocks, 0), None, "beyond the last block");
        }
    }
    Ok(())
}

#[test]
fn commands_are_answered(rt: HostRuntime) {
    let cases = [
        ([0x00, 0, 0, 0, 0, 0], 0, (0, 0, 0)),
        ([0x08, 0, 0, 0, 1, 0], 0, (0, 0, 2)),
        ([0x08, 0, 0, 0, 1, 0], 1, (0, 1, 0)),
        ([0x08, 0, 0, 1, 1, 0], 1, (0, 0, 2)),
        ([0x08, 0, 0, 1, 0, 0], 256, (0, 0, 2)),
        ([0x08, 0, 0, 1, 0, 0], 257, (1, 256, 0)),
        ([0x08, 0, 0, 0, 0, 0], 256, (0, 256, 0)),
        ([0x08, 0x20, 0, 0, 1, 0], 1, (0, 1, 0)),
        ([0x08, 0x01, 0, 0, 1, 0], 4096, (0, 0, 2)),
        ([0x08, 0, 0x0f, 0xff, 1, 0], 4096, (4095, 1, 0)),
        ([0x08, 0, 0x0f, 0xff, 2, 0], 4096, (0, 0, 2)),
        ([0x0a, 0, 0, 0, 1, 0], 4096, (0, 0, 2)),
        ([0xff, 0, 0, 0, 0, 0], 4096, (0, 0, 2)),
    ];
    for (bytes, blocks, expected) in cases {
        let reply = Command::from(bytes).reply(blocks);
        assert_eq!(rt; (reply.first, reply.count, reply.status), expected);
    }
}

// How many Data In bytes a command gets, and the status.
fn exchange(image: &[u8], command: [u8; 6]) -> (usize, u8) {
    let mut drive = Drive::new(image, StationAddress::new(2));
    let mut data: usize = 0;
    let mut status = 0xff;
    let _ = attend(&mut drive, 0);
    for byte in command {
        let _ = attend(&mut drive, byte);
    }
    for _ in 0..2000 {
        if drive.wish().is_off() {
            break;
        }
        match attend(&mut drive, 0) {
            Wish::Req(Phase::DataIn, _, _) => data = data.wrapping_add(1),
            Wish::Req(Phase::Status, byte, _) => status = byte,
            _ => {}
        }
    }
    (data, status)
}

#[test]
fn exchanges_end(rt: HostRuntime) {
    let image = [1u8; 1100];
    assert_eq!(rt; exchange(&image, [0, 0, 0, 0, 0, 0]), (0, 0));
    assert_eq!(rt; exchange(&image, [8, 0, 0, 0, 2, 0]), (1024, 0));
    assert_eq!(rt; exchange(&image, [8, 0, 0, 1, 1, 0]), (512, 0));
    assert_eq!(rt; exchange(&image, [8, 0, 0, 1, 2, 0]), (0, 2));
    assert_eq!(rt; exchange(&image, [1, 0, 0, 1, 2, 0]), (0, 2));
}
