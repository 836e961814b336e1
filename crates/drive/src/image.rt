// The disc image below a drive. Only this file knows how its blocks are laid out.
ghost use Rattle.std.specs.Prelude.{◌≡◌, ◌-◌, ◌*◌, min, length};
ghost use Rattle.drive.specs.Images.{block_size, stored, blocks_in, byte_at};

// A block has 512 bytes.
pub const BLOCK: usize = 512;

// How many blocks of an image count.
pub const MOST_BLOCKS: usize = 4096;

// A lent image, cut to the blocks that count.
#[derive(Clone, Copy)]
pub struct Image<'a> {
    bytes: &'a [u8],
    ghost whole: { length bytes.now ≡ blocks_in bytes.now * block_size },
}

impl<'a> Image<'a> {
    // Only whole blocks count, and at most 4,096 of them.
    pub fn new(bytes: &'a [u8]) -> Self
        ensures value { result.bytes.now ≡ stored bytes.now }
        ensures blocks { blocks_in result.bytes.now ≡ min (blocks_in bytes.now) 4096 }
    {
        let blocks = (bytes.len() / BLOCK).min(MOST_BLOCKS);
        Image {
            bytes: &bytes[..blocks * BLOCK],
        }
    }

    pub fn blocks(self) -> usize
        ensures { result ≡ blocks_in self.entry.bytes.now }
    {
        self.bytes.len() / BLOCK
    }

    // How many bytes stand from a block on.
    pub fn bytes_from(self, block: usize) -> usize
        ensures { result ≡ length self.entry.bytes.now - block * block_size }
    {
        self.bytes.len().saturating_sub(block.saturating_mul(BLOCK))
    }

    // The byte at a place of a block, if the image has that block.
    pub fn byte(self, block: usize, place: usize) -> Option<u8>
        ensures { result ≡ byte_at self.entry.bytes.now block place }
    {
        if block < self.blocks() && place < BLOCK {
            Some(self.bytes[block * BLOCK + place])
        } else {
            None
        }
    }
}
