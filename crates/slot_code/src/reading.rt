// A slot read: its words, and the planes that were whole, in work space by the block's dimension.
ghost use Rattle.std.specs.Prelude.{◌≡◌, not, ◌^◌, ◌≤◌, length, IfOk, IfErr, IfSome, is_some};
ghost use Rattle.words.specs.Word.{AllBelow};
ghost use Rattle.codec.specs.Calls.{Shape};
ghost use Rattle.params.specs.Dimension.{most_words};
ghost use Rattle.slot_code.specs.Rules.{words_of, depth_in, row11};
ghost use Rattle.slot_code.specs.Calls.{Place, bits_at, SlotRead, Unreadable};

use crate::{SOME_WORDS, coding_of};
use codec::change::narrow;
use params::{Dimension, FEW_WORDS, MOST_WORDS, Numbers, Refusal, Slot};
use words::Binary32;

// The words that a slot's bits give, in u64, whether a reader takes these bits, and the planes that
// were whole. The coefficients stand in other words.
#[tactic(auto, unfolding(crate::specs::Rules::words_of, crate::specs::Rules::depth_in, crate::specs::Rules::read_planes))]
fn fetch_words(
    numbers: Numbers,
    slot: Slot,
    archive: &[u8],
    cs: &mut [u64],
    words: &mut [u64],
) -> Option<u32>
    requires shape { Shape 32 numbers.dimension numbers.planes (length words.old) }
    requires space { length cs.old ≡ length words.old }
    requires place { Place numbers slot.width slot.at (length archive.now) }
    ensures words { words.new ≡ words_of numbers (bits_at slot archive.now) }
    ensures small { AllBelow (2 ^ 32) words.new }
    ensures taken { (row11 numbers (bits_at slot archive.now)).applies ≡ not (is_some result) }
    ensures depth { IfSome result (λ planes. planes ≡ depth_in numbers (bits_at slot archive.now)) }
{
    let Slot { at, width } = slot;
    let coding = coding_of(numbers);
    decode::read_block::<Binary32>(coding, archive, at, at + width, cs, words).ok()
}

/// The words of a slot, made in lent work space and handed over, and how many planes were whole; or
/// the refusal that an exact slot is no block's padded code, which leaves the words as they were.
pub fn fetch_by(
    numbers: Numbers,
    slot: Slot,
    archive: &[u8],
    cs: &mut [u64],
    wide: &mut [u64],
    words: &mut [u32],
) -> Result<u32, Refusal>
    requires shape { Shape 32 numbers.dimension numbers.planes (length words.old) }
    requires space { length cs.old ≡ length words.old }
    requires wide { length wide.old ≡ length words.old }
    requires place { Place numbers slot.width slot.at (length archive.now) }
    ensures read { IfOk result (λ planes.
        SlotRead numbers (bits_at slot archive.now)
        words.new planes) }
    ensures unreadable { IfErr result (λ e.
        Unreadable numbers (bits_at slot archive.now)
        words.old words.new e) }
{
    let Some(planes) = fetch_words(numbers, slot, archive, cs, wide) else {
        return Err(Refusal::NotACode);
    };
    narrow(wide, words);
    Ok(planes)
}

// The same, in work space for so many words.
fn fetch_in<const ROOM: usize>(
    numbers: Numbers,
    slot: Slot,
    archive: &[u8],
    words: &mut [u32],
) -> Result<u32, Refusal>
    requires shape { Shape 32 numbers.dimension numbers.planes (length words.old) }
    requires few { length words.old ≤ ROOM }
    requires room { ROOM ≤ most_words }
    requires place { Place numbers slot.width slot.at (length archive.now) }
    ensures read { IfOk result (λ planes.
        SlotRead numbers (bits_at slot archive.now)
        words.new planes) }
    ensures unreadable { IfErr result (λ e.
        Unreadable numbers (bits_at slot archive.now)
        words.old words.new e) }
{
    let mut cs = [0u64; ROOM];
    let mut wide = [0u64; ROOM];
    let n = words.len();
    fetch_by(numbers, slot, archive, &mut cs[..n], &mut wide[..n], words)
}

/// The words of a slot and how many planes were whole, or the refusal of [`fetch_by`].
pub fn fetch(
    numbers: Numbers,
    slot: Slot,
    archive: &[u8],
    words: &mut [u32],
) -> Result<u32, Refusal>
    requires shape { Shape 32 numbers.dimension numbers.planes (length words.old) }
    requires place { Place numbers slot.width slot.at (length archive.now) }
    ensures read { IfOk result (λ planes.
        SlotRead numbers (bits_at slot archive.now)
        words.new planes) }
    ensures unreadable { IfErr result (λ e.
        Unreadable numbers (bits_at slot archive.now)
        words.old words.new e) }
{
    match coding_of(numbers).dimension {
        Dimension::One | Dimension::Two => fetch_in::<FEW_WORDS>(numbers, slot, archive, words),
        Dimension::Three => fetch_in::<SOME_WORDS>(numbers, slot, archive, words),
        Dimension::Four => fetch_in::<MOST_WORDS>(numbers, slot, archive, words),
    }
}
