// An answer on its way out.
ghost use Rattle.std.specs.Prelude.{◌≡◌, ◌^◌, ◌<◌, length, OnSome};
ghost use Rattle.drive.specs.Images.{first_of};
ghost use Rattle.drive.specs.Drives.{left_of};

use super::command::Reply;
use super::image::{BLOCK, Image};

// An answer, of which so many bytes were sent.
#[derive(Clone, Copy, Debug, PartialEq, Eq)]
pub struct Sending {
    pub reply: Reply,
    pub sent: u32,
}

impl Sending {
    // The byte that is due, if one is left.
    #[tactic(auto, using(crate::proofs::Blocks::none_left, crate::proofs::Blocks::stands, crate::proofs::Blocks::any_found))]
    pub fn due(self, image: Image<'_>) -> Option<u8>
        ensures value { result ≡ first_of (left_of image.entry.bytes.now self) }
        ensures bound { OnSome result (self.sent < 2 ^ 25) }
    {
        if self.sent as usize >= self.reply.count as usize * BLOCK {
            return None;
        }
        let block = self.reply.first as usize + self.sent as usize / BLOCK;
        image.byte(block, self.sent as usize % BLOCK)
    }

    // How many bytes are left.
    pub fn left(self, image: Image<'_>) -> usize
        ensures { result ≡ length (left_of image.entry.bytes.now self) }
    {
        image
            .bytes_from(self.reply.first as usize)
            .min(self.reply.count as usize * BLOCK)
            .saturating_sub(self.sent as usize)
    }
}
