// Where the slots of an archive lie, and how long a code in one is.
ghost use Rattle.std.specs.Prelude.{◌≡◌, ◌*◌, ◌≤◌, ◌<◌, IsTrue, cond, min, ltb, IfOk, IfErr, OnOk, OnErr};
ghost use Rattle.params.specs.declared.refusal.Refusal.{Refusal};
ghost use Rattle.params.specs.Refusals.{number_of, count_of};
ghost use Rattle.params.specs.Width.{exact, width_of, slots_in};
ghost use Rattle.params.specs.Rows.{first, count_rows, place_rows};

use crate::{Mode, Params, Refusal};

/// A slot of an archive: the bit that it begins at, and how many bits it has.
#[derive(Clone, Copy, Debug, PartialEq, Eq)]
pub struct Slot {
    pub at: usize,
    pub width: usize,
}

// Refuses an archive that is too long.
fn check_size(size: usize) -> Result<(), Refusal>
    ensures short { OnOk result (size ≤ 65536) }
    ensures long { OnErr result (65536 < size) }
    ensures refusal { IfErr result (λ e. e ≡ Refusal.ArchiveTooLong) }
{
    if 65536 < size {
        return Err(Refusal::ArchiveTooLong);
    }
    Ok(())
}

impl Params {
    /// How many slots an archive of so many bytes has; at most 65,536 bytes.
    #[tactic(auto, unfolding(crate::specs::Width::slots_in))]
    pub fn slot_count(&self, size: usize) -> Result<usize, Refusal>
        ensures count { IfOk result (λ n. n ≡ slots_in self.now size) }
        ensures most { IfOk result (λ n. n ≤ 32768) }
        ensures passed { OnOk result (first (count_rows self.now size) ≡ 0) }
        ensures refused { IfErr result (λ e. number_of e ≡ first (count_rows self.now size)) }
        ensures bare { IfErr result (λ e. count_of e ≡ 0) }
    {
        let numbers = self.numbers();
        check_size(size)?;
        Ok(numbers.slots_in(size))
    }

    /// Slot number `slot` of an archive of so many bytes, for so many words.
    pub fn locate(&self, size: usize, slot: usize, words: usize) -> Result<Slot, Refusal>
        ensures at { IfOk result (λ s. s.at ≡ slot * width_of self.now) }
        ensures width { IfOk result (λ s. s.width ≡ width_of self.now) }
        ensures passed { OnOk result (first (place_rows self.now size slot words) ≡ 0) }
        ensures refused { IfErr result (λ e. number_of e ≡ first (place_rows self.now size slot words)) }
        ensures bare { IfErr result (λ e. count_of e ≡ 0) }
    {
        let width = self.width();
        check_size(size)?;
        if !self.numbers().has_slot(size, slot) {
            return Err(Refusal::NoSuchSlot);
        }
        if words != self.word_count() {
            return Err(Refusal::InvalidBlockLen);
        }
        Ok(Slot {
            at: slot * width,
            width,
        })
    }

    /// The length of the code whose uncut length is so many bits: a lossy one is cut to its slot.
    // Not by the numbers, which ask for the width: it is found in lossy mode alone.
    pub fn cut_bits(&self, bits: usize) -> usize
        ensures { result ≡ cond (exact self.now) bits (min bits (width_of self.now)) }
    {
        match self.mode() {
            Mode::Exact => bits,
            Mode::Lossy => bits.min(self.width()),
        }
    }
}
