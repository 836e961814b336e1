// What is asked for on the command line.
ghost use Rattle.std.specs.Prelude.{◌≡◌, ◌+◌, ◌*◌, ◌/◌, ◌%◌, ◌^◌, ◌<◌, ◌≤◌, [], ◌∷◌, IfOk};

use super::failure::Failure;
use std::alloc::Global;
use std::collections::BTreeSet;
use std::env::Args;
use std::fmt;
use std::iter::Peekable;

// How the host moves bytes of data.
#[derive(Clone, Copy, Debug, PartialEq, Eq, PartialOrd, Ord)]
pub enum Way {
    Pio,
    Dma,
}

// The blocks that are to be read, and off which station.
#[derive(Clone, Copy, Debug)]
pub struct Request {
    pub address: u8,
    pub block: u32,
    pub count: u8,
}

#[derive(Drop)]
pub struct Order {
    pub ways: BTreeSet<Way>,
    pub image: String,
    pub request: Request,
    pub break_after: u16,
}

impl fmt::Display for Way {
    fn fmt<W: fmt::Write>(&self, f: &mut fmt::Formatter<W>) -> fmt::Result {
        f.write_str(match self {
            Way::Pio => "reads and writes",
            Way::Dma => "DMA",
        })
    }
}

impl Request {
    // The command READ, which has five bits for the block's high part.
    pub fn command(self) -> [u8; 6]
        ensures { result ≡ 8 ∷ self.block / 65536 % 32 ∷ self.block / 256 % 256 ∷ self.block % 256 ∷ self.count ∷ 0 ∷ [] }
    {
        let [_, high, middle, low] = self.block.to_be_bytes();
        [0x08, high % 32, middle, low, self.count, 0]
    }

    // How many bytes the blocks have.
    pub fn bytes(self) -> usize
        ensures value { result ≡ self.count * 512 }
        ensures bound { result < 2 ^ 17 }
    {
        usize::from(self.count) * 512
    }

    // A host that is so many turns at it gives up.
    pub fn turns(self) -> u32
        ensures { result ≡ self.count * 10240 + 100 }
    {
        self.bytes() as u32 * 20 + 100
    }
}

fn way_of(flag: &str) -> Option<Way> {
    match flag {
        "--pio" => Some(Way::Pio),
        "--dma" => Some(Way::Dma),
        _ => None,
    }
}

// The ways that are named first, two at most; with none the host reads and writes.
fn ways_of(heap: Global, words: &mut Peekable<Args>) -> Result<BTreeSet<Way>, Failure> {
    let mut ways = BTreeSet::new(heap);
    for _ in 0..2 {
        let Some(way) = words.peek().and_then(|word| way_of(word.as_str())) else {
            break;
        };
        ways.insert(way)?;
        let _ = words.next();
    }
    if ways.is_empty() {
        ways.insert(Way::Pio)?;
    }
    Ok(ways)
}

// A number of a command line, up to the most that it may be. It is not read as programs::fields does: a plus may stand before
// it, and where there is no word the usage is told.
fn number(word: Option<String>, name: &'static str, most: u32) -> Result<u32, Failure>
    ensures { IfOk result (λ n. n ≤ most) }
{
    let word = word.ok_or(Failure::Usage)?;
    match word.as_str().parse::<u32>() {
        Ok(number) if number <= most => Ok(number),
        _ => Err(Failure::NoNumber { name, most, word }),
    }
}

pub fn order_of(heap: Global, words: Args) -> Result<Order, Failure> {
    let mut words = words.peekable();
    let _ = words.next();
    let ways = ways_of(heap, &mut words)?;
    let image = words.next().ok_or(Failure::Usage)?;
    let address = number(words.next(), "address", 7)? as u8;
    let block = number(words.next(), "block", 0x1f_ffff)?;
    let count = number(words.next(), "count", 64)? as u8;
    let break_after = match words.next() {
        None => 0,
        some => number(some, "bytes after which to break", 65535)? as u16,
    };
    if words.next().is_some() {
        return Err(Failure::Usage);
    }
    if count == 0 {
        return Err(Failure::NoBlocks);
    }
    Ok(Order {
        ways,
        image,
        request: Request {
            address,
            block,
            count,
        },
        break_after,
    })
}
