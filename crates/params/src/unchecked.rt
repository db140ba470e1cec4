// The first row and the sizes of a caller's numbers. Kept over numbers, beside the parameters that
// they may be: these promises speak of numbers that are no good parameters, too.
ghost use Rattle.std.specs.Prelude.{◌≡◌, ◌≤◌, ◌<◌, ◌&&◌, IsTrue, cond, leb, ltb, min};
ghost use Rattle.params.specs.Dimension.{Dimension};
ghost use Rattle.params.specs.Width.{exact, good_width, widest_slot, width_of, word_count, slots_in};
ghost use Rattle.params.specs.Lowest.{good_lowest};
ghost use Rattle.params.specs.Rows.{first, parameter_rows_of};

use crate::good::zero_width;
use crate::{LOWEST_OFFSET, Numbers, WIDEST};

// Whether a number lies from one bound to another.
fn within(low: u32, number: u32, high: u32) -> bool
    ensures { result ≡ (leb low number && leb number high) }
{
    low <= number && number <= high
}

// Whether a width is 0 or from 16 to the widest.
fn is_good_width(width: u32) -> bool
    ensures { result ≡ good_width width }
{
    width == 0 || within(16, width, WIDEST)
}

// Whether a lowest exponent, raised by 300, is that of one from -300 to 300.
fn is_good_lowest(lowest: u32) -> bool
    ensures { result ≡ good_lowest lowest }
{
    lowest <= 2 * LOWEST_OFFSET
}

// A row's number if it applies, else the answer of the rows after it.
fn row(number: u32, applies: bool, rest: u32) -> u32
    ensures { result ≡ cond applies number rest }
{
    if applies { number } else { rest }
}

impl Numbers {
    /// The first of rows 1 to 5 and 13 that applies to these numbers, which may be any, or 0 if none
    /// does: of a call that allows kinds from `kind` on, modes from `mode` on, and dimensions up to
    /// `top`.
    pub fn first_row(self, kind: u32, mode: u32, top: u32) -> u32
        ensures row { result ≡ first (parameter_rows_of kind mode top self) }
    {
        let last = row(
            5,
            !is_good_width(self.width),
            row(13, !is_good_lowest(self.lowest), 0),
        );
        let after = row(4, !within(1, self.planes, 32), last);
        let from_mode = row(3, !within(mode, self.mode, 1), after);
        let from_dimension = row(2, !within(1, self.dimension, top), from_mode);
        row(1, !within(kind, self.kind, 1), from_dimension)
    }

    /// N: how many words a block has. Of these numbers the dimension alone must be good.
    pub fn word_count(self) -> usize
        requires dimension { Dimension self.dimension }
        ensures count { result ≡ word_count self }
    {
        1 << (2 * self.dimension)
    }

    /// W, the bits of a slot. Of these numbers the dimension alone must be good.
    #[tactic(auto, using(crate::proofs::RowLaws::power_within), unfolding(crate::specs::Width::zero_width))]
    pub fn width(self) -> usize
        requires dimension { Dimension self.dimension }
        ensures width { result ≡ width_of self }
    {
        if self.width != 0 {
            return self.width as usize;
        }
        zero_width(self.mode == 1, self.word_count())
    }

    /// How many slots an archive of so many bytes has. Any numbers that give a width from 16 on.
    #[tactic(auto, unfolding(crate::specs::Width::slots_in))]
    pub fn slots_in(self, size: usize) -> usize
        requires dimension { Dimension self.dimension }
        requires some { 16 ≤ width_of self }
        requires short { size ≤ 65536 }
        ensures count { result ≡ slots_in self size }
    {
        8 * size / self.width()
    }

    /// Whether an archive of so many bytes has the slot. Any numbers that give a width from 16 to
    /// the widest.
    // By a product and no division: no archive has 32,768 slots and one more.
    pub fn has_slot(self, size: usize, slot: usize) -> bool
        requires dimension { Dimension self.dimension }
        requires some { 16 ≤ width_of self }
        requires most { width_of self ≤ widest_slot }
        requires short { size ≤ 65536 }
        ensures has { result ≡ ltb slot (slots_in self size) }
        ensures few { IsTrue result → slot < 32768 }
    {
        if 32768 <= slot {
            return false;
        }
        (slot + 1) * self.width() <= 8 * size
    }

    /// The length of the code whose uncut length is so many bits, in a slot of `width` bits: in any
    /// mode but exact it is cut to its slot. Any numbers.
    pub fn cut_bits(self, width: usize, bits: usize) -> usize
        ensures bits { result ≡ cond (exact self) bits (min bits width) }
    {
        if self.mode == 1 {
            return bits;
        }
        bits.min(width)
    }

    /// Row 10: whether an exact code of so many bits is longer than its slot of `width` bits. Any
    /// numbers.
    pub fn is_too_long(self, width: usize, bits: usize) -> bool
        ensures long { result ≡ (exact self && ltb width bits) }
    {
        self.mode == 1 && width < bits
    }
}
