// A drive over a disc image, under a breaker: one whole exchange, from choosing to Off.
ghost use Rattle.std.specs.Prelude.{◌≡◌, ◌<◌, ◌≤◌, ◌↔◌, ◌∷◌, length, IsNone, IfSome};
ghost use Rattle.std.specs.Vec.Iter.{into_iter_items, into_iter_len};

use super::failure::Failure;
use breaker::Breaker;
use bus::address::StationAddress;
use bus::message::Message;
use bus::patient::attend;
use bus::phase::Phase;
use bus::station::Station;
use bus::status::Status;
use bus::wish::Wish;
use drive::drive::Drive;
use drive::image::Image;
use dump::Hexdump;
use hex::FromHex;
use std::alloc::Global;
use std::env::Args;
use std::io::Write;
use std::rt::Files;
use std::{fs, io};

// Who is who on the cable.
const STATION: u8 = 2;

const HOST: u8 = 7;

// More wishes than any exchange has: a READ of 256 blocks with a break at each byte.
const MOST_WISHES: u32 = 1_000_000;

// An exchange as it is asked for: the path of an image, a command in hex, and after how many bytes to break.
#[derive(Drop)]
pub struct Exchange {
    pub image: String,
    pub command: String,
    pub after: String,
}

impl Exchange {
    // The next three words.
    pub fn of_words(words: &mut Args) -> Option<Self>
        ensures some { IfSome result (λ e. into_iter_items words.old ≡ e.image ∷ e.command ∷ e.after ∷ into_iter_items words.new) }
        ensures none { IsNone result ↔ (length (into_iter_items words.old) < 3) }
        ensures fewer { into_iter_len words.new ≤ into_iter_len words.old }
    {
        Some(Exchange {
            image: words.next()?,
            command: words.next()?,
            after: words.next()?,
        })
    }
}

// What the byte of a wish says, where it has a name.
fn meaning_of(wish: Wish) -> Option<&'static str> {
    match wish {
        Wish::Req(Phase::Status, byte, _) => Status::try_from(byte)
            .ok()
            .map(|status| status.name()),
        Wish::Req(Phase::MessageIn, byte, _) => Message::try_from(byte)
            .ok()
            .map(|message| message.name()),
        _ => None,
    }
}

// Writes out the Data In bytes since the last other wish.
fn show_run<W: Write>(out: &mut W, run: &[u8]) -> io::Result<()> {
    if run.is_empty() {
        return Ok(());
    }
    let length = run.len();
    writeln!(out, "Req Data In, {length} bytes")?;
    write!(out, "{}", Hexdump(run))
}

// One wish and what was sent to it.
fn show_wish<W: Write>(out: &mut W, wish: Wish, sent: u8) -> io::Result<()> {
    if wish.takes_byte() {
        writeln!(out, "{wish}, sent {sent:02x}h")
    } else if wish.is_off() {
        writeln!(out, "{wish}, chosen with ATN off")
    } else {
        match meaning_of(wish) {
            Some(meaning) => writeln!(out, "{wish}: {meaning}"),
            None => writeln!(out, "{wish}"),
        }
    }
}

// Chooses the station, gives it the command, and goes on until it is off the cable again. All Data In bytes are handed back.
fn carry_out<S: Station, W: Write>(
    heap: Global,
    out: &mut W,
    station: &mut S,
    command: [u8; 6],
) -> Result<Vec<u8>, Failure> {
    let mut command = command.into_iter();
    let mut data = Vec::new(heap);
    let mut run = Vec::new(heap);
    let chosen = attend(station, 0);
    show_wish(out, chosen, 0)?;
    for _ in 1..MOST_WISHES {
        let wish = station.wish();
        if let Some(byte) = wish.data_in() {
            run.push(byte)?;
            attend(station, 0);
            continue;
        }
        show_run(out, run.as_slice())?;
        data.extend_from_slice(run.as_slice())?;
        run.clear();
        if wish.is_off() {
            writeln!(out, "{wish}")?;
            return Ok(data);
        }
        let sent = if wish.takes_byte() {
            command.next().unwrap_or(0)
        } else {
            0
        };
        attend(station, sent);
        show_wish(out, wish, sent)?;
    }
    Err(Failure::Endless)
}

pub fn show_exchange<W: Write>(
    rt: &(impl Files + AllocGlobal),
    out: &mut W,
    exchange: Exchange,
) -> Result<(), Failure> {
    let Exchange {
        image,
        command,
        after,
    } = exchange;
    let bytes = fs::read(rt, image.as_str())?;
    let Ok(block) = <[u8; 6]>::from_hex(command.as_str()) else {
        return Err(Failure::NoCommand(command));
    };
    let Ok(n) = after.as_str().parse::<u16>() else {
        return Err(Failure::NoNumber(after));
    };
    let blocks = Image::new(bytes.as_slice()).blocks();
    writeln!(
        out,
        "{image}: {blocks} blocks count; command {command}, a break after each {n} bytes"
    )?;
    let drive = Drive::new(bytes.as_slice(), StationAddress::new(STATION));
    let mut station = Breaker::new(drive, n, StationAddress::new(HOST));
    let data = carry_out(rt.alloc(), out, &mut station, block)?;
    let sum = data.len();
    writeln!(out, "data: {sum} bytes")?;
    write!(out, "{}", Hexdump(data.as_slice()))?;
    Ok(())
}
