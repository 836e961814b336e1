// A session as it is read: the chip, its station, and the calls.
use super::failure::Fault;
use super::line::{Break, Line};
use drive::image::BLOCK;
use registers::call::CallRow;
use script::row::Row;
use std::alloc::{AllocError, Global};
use std::fs;
use std::rt::Files;

// The chip's address where none is given.
const CHIP: u8 = 7;

// What a station is made of: the table of a script, or the image of a drive.
#[derive(Drop)]
pub enum Kind {
    Script(Vec<Row>),
    Drive(Vec<u8>),
}

// The station of a session, with the chip's address and what comes after it.
#[derive(Drop)]
pub struct Placed {
    pub chip: u8,
    pub address: u8,
    pub kind: Kind,
    pub breaker: Option<Break>,
    pub calls: Vec<CallRow>,
}

// Its lines stand in this order: the chip, the station, its rows, a breaker, the calls.
#[derive(Default, Drop)]
pub struct Session {
    chip: Option<u8>,
    pub placed: Option<Placed>,
}

// The bytes of a file, or an error that names it.
fn read_image(rt: &(impl Files + AllocGlobal), path: &str) -> Result<Vec<u8>, Fault> {
    match fs::read(rt, path) {
        Ok(image) => Ok(image),
        Err(error) => Err(Fault::NoFile {
            path: String::from_str(rt.alloc(), path)?,
            error,
        }),
    }
}

// The byte at a place of a block of an image that is made.
fn pattern(block: u32, place: usize) -> u8 {
    let sum = (block as usize)
        .wrapping_mul(7)
        .wrapping_add(place.wrapping_mul(13))
        .wrapping_add((place / 256).wrapping_mul(101));
    (sum % 256) as u8
}

// Makes an image of so many blocks.
fn draw_image(heap: Global, blocks: u32) -> Result<Vec<u8>, AllocError> {
    let mut image = Vec::new(heap);
    for block in 0..blocks {
        for place in 0..BLOCK {
            image.push(pattern(block, place))?;
        }
    }
    Ok(image)
}

impl Placed {
    fn new(heap: Global, chip: u8, address: u8, kind: Kind) -> Self {
        Placed {
            chip,
            address,
            kind,
            breaker: None,
            calls: Vec::new(heap),
        }
    }

    // What can come next, for a line that cannot.
    fn expected(&self) -> &'static str {
        match self.kind {
            _ if self.breaker.is_some() || !self.calls.is_empty() => "call or session",
            Kind::Script(_) => "row, breaker, call or session",
            Kind::Drive(_) => "breaker, call or session",
        }
    }

    fn take(&mut self, line: Line<'_>) -> Result<(), Fault> {
        let alone = self.breaker.is_none() && self.calls.is_empty();
        match (&mut self.kind, line) {
            (Kind::Script(rows), Line::Row(row)) if alone => rows.push(row)?,
            (_, Line::Breaker(made_with)) if alone => self.breaker = Some(made_with),
            (_, Line::Call(call)) => self.calls.push(call)?,
            _ => return Err(Fault::Misplaced(self.expected())),
        }
        Ok(())
    }
}

impl Session {
    // One more line, where it is in its place.
    pub fn take(&mut self, rt: &(impl Files + AllocGlobal), line: Line<'_>) -> Result<(), Fault> {
        if let Some(placed) = &mut self.placed {
            return placed.take(line);
        }
        let heap = rt.alloc();
        let (address, kind) = match line {
            Line::Chip(address) if self.chip.is_none() => {
                self.chip = Some(address);
                return Ok(());
            }
            Line::Script(address) => (address, Kind::Script(Vec::new(heap))),
            Line::DriveFile(address, path) => (address, Kind::Drive(read_image(rt, path)?)),
            Line::DrivePattern(address, blocks) => (
                address,
                Kind::Drive(draw_image(heap, blocks)?),
            ),
            _ if self.chip.is_some() => return Err(Fault::Misplaced("script or drive")),
            _ => return Err(Fault::Misplaced("chip, script or drive")),
        };
        let chip = self.chip.unwrap_or(CHIP);
        self.placed = Some(Placed::new(heap, chip, address, kind));
        Ok(())
    }
}
