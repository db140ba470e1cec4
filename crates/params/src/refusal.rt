// Why a call on slots was refused.
ghost use Rattle.std.specs.Prelude.{◌≡◌};
ghost use Rattle.params.specs.Refusals.{number_of, count_of};

use std::error::Error;
use std::fmt;

/// Why a call was refused: a row of the table of answers. Of the rows that apply the first one is
/// given, in the order 1 to 5, 13, 6 to 10, 14, 11.
#[derive(Clone, Copy, Debug, PartialEq, Eq)]
pub enum Refusal {
    /// 1: the kind is not 0 or 1, or not one that the call allows.
    InvalidKind,
    /// 2: the dimension is not from 1 to 4, or above the greatest that the call allows.
    InvalidDimension,
    /// 3: the mode is not 0 or 1, or not one that the call allows.
    InvalidMode,
    /// 4: the planes are not from 1 to 32.
    InvalidPlanes,
    /// 5: the width is neither 0 nor from 16 to 8,462 bits.
    InvalidWidth,
    /// 13: the lowest exponent is not from -300 to 300.
    InvalidLowest,
    /// 6: the archive is longer than 65,536 bytes.
    ArchiveTooLong,
    /// 7: the archive has no slot of that number.
    NoSuchSlot,
    /// 8: the buffer of words has not the length of a block.
    InvalidBlockLen,
    /// 9: a float that is to be stored lossy is infinite or not a number.
    NotFinite,
    /// 10: the exact code of the block, of so many bits, is longer than the slot.
    CodeTooLong { bits: u32 },
    /// 14: the new archive has fewer slots than the one that is copied.
    TooFewSlots,
    /// 11: the slot holds no exact code.
    NotACode,
    /// 11 of a copy: this slot of the old archive holds no exact code, and it is the first one.
    UnreadableSlot { slot: u32 },
}

impl Refusal {
    /// The number of the row.
    pub fn number(self) -> u32
        ensures { result ≡ number_of self }
    {
        match self {
            Refusal::InvalidKind => 1,
            Refusal::InvalidDimension => 2,
            Refusal::InvalidMode => 3,
            Refusal::InvalidPlanes => 4,
            Refusal::InvalidWidth => 5,
            Refusal::InvalidLowest => 13,
            Refusal::ArchiveTooLong => 6,
            Refusal::NoSuchSlot => 7,
            Refusal::InvalidBlockLen => 8,
            Refusal::NotFinite => 9,
            Refusal::CodeTooLong { .. } => 10,
            Refusal::TooFewSlots => 14,
            Refusal::NotACode | Refusal::UnreadableSlot { .. } => 11,
        }
    }

    /// The count that comes with it: the bits that a code needs, an unreadable slot's number, else 0.
    pub fn count(self) -> u32
        ensures { result ≡ count_of self }
    {
        match self {
            Refusal::CodeTooLong { bits } => bits,
            Refusal::UnreadableSlot { slot } => slot,
            _ => 0,
        }
    }
}

impl fmt::Display for Refusal {
    fn fmt<W: fmt::Write>(&self, f: &mut fmt::Formatter<W>) -> fmt::Result {
        match self {
            Refusal::InvalidKind => write!(f, "the kind is not one that the call allows"),
            Refusal::InvalidDimension => write!(f, "the dimension is not from 1 to 4"),
            Refusal::InvalidMode => write!(f, "the mode is not one that the call allows"),
            Refusal::InvalidPlanes => write!(f, "the planes are not from 1 to 32"),
            Refusal::InvalidWidth => write!(f, "the width is neither 0 nor from 16 to 8462"),
            Refusal::InvalidLowest => write!(f, "the lowest exponent is not from -300 to 300"),
            Refusal::ArchiveTooLong => write!(f, "the archive is longer than 65536 bytes"),
            Refusal::NoSuchSlot => write!(f, "the archive has no slot of that number"),
            Refusal::InvalidBlockLen => write!(f, "the words are not as many as a block has"),
            Refusal::NotFinite => write!(f, "a float to be stored lossy is not finite"),
            Refusal::CodeTooLong { bits } => write!(
                f,
                "the slot is shorter than the code of {bits} bits"
            ),
            Refusal::TooFewSlots => write!(f, "the new archive has fewer slots"),
            Refusal::NotACode => write!(f, "the slot holds no exact code"),
            Refusal::UnreadableSlot { slot } => write!(f, "slot {slot} holds no exact code"),
        }
    }
}

impl Error for Refusal {}
