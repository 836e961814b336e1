// The received bytes: at most two, and the oldest is read first.
ghost use Rattle.std.specs.Prelude.{◌≡◌, ◌-◌, ◌<◌, ◌≤◌, true, false, [], ◌∷◌, ◌++◌, length, drop, nat_lt, slice_index};
ghost use Rattle.chip.specs.Model.{items};
ghost use Rattle.chip.specs.Outcomes.{is_empty};
ghost use Rattle.chip.specs.Places.{places};

use super::chip::Received;

// How many received bytes the chip has places for.
const PLACES: usize = 2;

impl Received {
    pub(crate) fn new() -> Self
        ensures items { items result ≡ [] }
        ensures count { result.count ≡ 0 }
    {
        Received {
            bytes: [0; PLACES],
            count: 0,
        }
    }

    pub(crate) fn is_empty(&self) -> bool
        ensures value { result ≡ is_empty (items self.now) }
        ensures none { result ≡ true → self.now.count ≡ 0 }
        ensures some { result ≡ false → 0 < self.now.count }
    {
        self.count == 0
    }

    // Whether there is a place for one more.
    pub(crate) fn has_place(&self) -> bool
        ensures value { result ≡ nat_lt (length (items self.now)) places }
        ensures room { result ≡ true → self.now.count < places }
    {
        self.count < PLACES
    }

    pub(crate) fn len(&self) -> u8
        ensures value { result ≡ length (items self.now) }
        ensures count { result ≡ self.now.count }
        ensures bound { result ≤ places }
    {
        self.count as u8
    }

    pub(crate) fn clear(&mut self)
        ensures items { items self.new ≡ [] }
        ensures count { self.new.count ≡ 0 }
    {
        self.count = 0;
    }

    #[tactic(auto, using(std::proofs::lemmas::List::take_more_set))]
    pub(crate) fn put(&mut self, byte: u8)
        requires { self.old.count < places }
        ensures { items self.new ≡ items self.old ++ (byte ∷ []) }
    {
        self.bytes[self.count] = byte;
        self.count += 1;
    }

    // Takes the oldest byte.
    #[tactic(auto, using(crate::proofs::Fronts::take_first, crate::proofs::Fronts::take_shift))]
    pub(crate) fn take(&mut self) -> u8
        requires { 0 < self.old.count }
        ensures value { result ≡ slice_index (items self.old) 0 }
        ensures items { items self.new ≡ drop 1 (items self.old) }
        ensures count { self.new.count ≡ self.old.count - 1 }
    {
        let byte = self.oldest();
        self.bytes[0] = self.bytes[1];
        self.count -= 1;
        byte
    }

    fn oldest(&self) -> u8
        ensures { result ≡ slice_index self.now.bytes 0 }
    {
        let [oldest, _] = self.bytes;
        oldest
    }
}
