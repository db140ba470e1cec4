// The form of a block's code: what stands in front of its planes, and what these are the planes of.
ghost use Rattle.std.specs.Prelude.{◌≡◌, ◌+◌, ◌^◌, ◌≤◌, ◌<◌, length};
ghost use Rattle.floats.specs.Pattern.{field_bits};
ghost use Rattle.bits.specs.Stream.{number_bits};
ghost use Rattle.floats.specs.Calls.{format_of};
ghost use Rattle.codec.specs.Calls.Form.{head, planes_in, integers_in, Ready, IsField};

use crate::change::{flip_all, to_integers};
use words::Format;

/// The form of a block's code. In lossy mode floats are `Zeros` or `Lossy`, in exact mode `Zeros`,
/// `Multiples` or `Flipped`.
#[derive(Clone, Copy, Debug, PartialEq, Eq)]
pub enum Form {
    /// Nothing, then the planes of the words.
    Integers,
    /// A single 0: every word is zero, or no plane is left.
    Zeros,
    /// Bits 1 0 and e, then the planes of the integers at e: every float is a whole multiple.
    Multiples { e: u32 },
    /// Bits 1 1, then the planes of the words, the lower bits inverted where the top bit is set.
    Flipped,
    /// A 1 and e, then so many planes of the integers at e.
    Lossy { e: u32, planes: u32 },
}

impl Form {
    /// What stands in front of the planes, as a number of so many bits.
    pub fn head<F: Format>(self) -> (u32, u32)
        requires field { IsField (format_of F.SIZE) self }
        ensures number { result.0 < 2 ^ result.1 }
        ensures head { number_bits result.1 result.0 ≡ head (format_of F.SIZE) self }
        ensures long { result.1 ≡ length (head (format_of F.SIZE) self) }
        ensures short { result.1 ≤ 2 + field_bits (format_of F.SIZE) }
        ensures few { result.1 ≤ 13 }
    {
        match self {
            Form::Integers => (0, 0),
            Form::Zeros => (0, 1),
            Form::Multiples { e } => (4 * e + 1, F::FIELD_BITS + 2),
            Form::Flipped => (3, 2),
            Form::Lossy { e, .. } => (2 * e + 1, F::FIELD_BITS + 1),
        }
    }

    /// How many planes a lossy code has, of so many.
    pub fn planes(self, most: u32) -> u32
        ensures { result ≡ planes_in self most }
    {
        match self {
            Form::Lossy { planes, .. } => planes,
            _ => most,
        }
    }

    /// The words of a block become the integers that its planes are of.
    pub fn make_integers<F: Format>(self, words: &mut [u64])
        requires ready { Ready (format_of F.SIZE) self words.old }
        ensures { words.new ≡ integers_in (format_of F.SIZE) self words.old }
    {
        match self {
            Form::Integers | Form::Zeros => {}
            Form::Multiples { e } | Form::Lossy { e, .. } => to_integers::<F>(e, words),
            Form::Flipped => flip_all::<F>(words),
        }
    }
}
