// Fetches blocks off a drive through the chip, as a host of 1986 would: fetch [--pio|--dma].. IMAGE ADDRESS BLOCK COUNT [BREAK-AFTER]
#![tactic(auto)]

mod failure;
mod host;
mod order;

use breaker::Breaker;
use bus::address::StationAddress;
use drive::drive::Drive;
use dump::Hexdump;
use failure::Failure;
use host::{HOST, Host};
use order::{Order, Way, order_of};
use programs::ending::end;
use scsi_string::ScsiString;
use std::alloc::Global;
use std::io::{BufWriter, Write};
use std::process::ExitCode;
use std::{env, fs};

// The one station on the cable is a drive at this address.
const DRIVE: u8 = 2;

fn fetch<W: Write>(
    heap: Global,
    out: &mut W,
    image: &[u8],
    order: &Order,
    way: Way,
) -> Result<(), Failure> {
    let drive = Drive::new(image, StationAddress::new(DRIVE));
    let station = Breaker::new(drive, order.break_after, StationAddress::new(HOST));
    let string = ScsiString::new(StationAddress::new(HOST), station);
    let mut host = Host::new(heap, string, order.request, way);
    host.fetch(out)?;
    let record = host.record();
    let sum = record.len();
    writeln!(out, "record: {sum} bytes")?;
    write!(out, "{}", Hexdump(record))?;
    Ok(())
}

fn run(rt: &HostRuntime) -> anyhow::Result<()> {
    let heap = rt.alloc();
    let order = order_of(heap, env::args(rt)?)?;
    let image = fs::read(rt, order.image.as_str())?;
    let mut out = BufWriter::new(heap, rt.stdout())?;
    for way in order.ways.iter() {
        fetch(heap, &mut out, image.as_slice(), &order, *way)?;
    }
    out.flush()?;
    Ok(())
}

fn main(rt: HostRuntime) -> ExitCode {
    end(&rt, "fetch", run(&rt))
}
