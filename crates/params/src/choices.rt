// What a caller chooses by a number: a block's kind, its dimension, and the mode of its code.
ghost use Rattle.std.specs.Prelude.{◌≡◌, ◌^◌, ◌≤◌, ◌<◌, MatchResult};
ghost use Rattle.params.specs.declared.refusal.Refusal.{Refusal};
ghost use Rattle.params.specs.Choices.{kind_number, mode_number, dimension_number};

use crate::Refusal;

/// What the words of a block are: integers in two's complement, or patterns of floats.
#[derive(Clone, Copy, Debug, PartialEq, Eq)]
pub enum Kind {
    Integers,
    Floats,
}

/// Whether a code is cut to its slot, or gives back each word.
#[derive(Clone, Copy, Debug, PartialEq, Eq)]
pub enum Mode {
    Lossy,
    Exact,
}

/// The dimension d of a block, which has 4 ^ d words.
#[derive(Clone, Copy, Debug, PartialEq, Eq)]
pub enum Dimension {
    One,
    Two,
    Three,
    Four,
}

impl Kind {
    /// The number that callers give: 0 for integers, 1 for floats.
    pub fn number(self) -> u32
        ensures { result ≡ kind_number self }
    {
        match self {
            Kind::Integers => 0,
            Kind::Floats => 1,
        }
    }
}

impl Mode {
    /// The number that callers give: 0 for lossy, 1 for exact.
    pub fn number(self) -> u32
        ensures { result ≡ mode_number self }
    {
        match self {
            Mode::Lossy => 0,
            Mode::Exact => 1,
        }
    }
}

impl Dimension {
    /// The number that callers give, 1 to 4.
    pub fn number(self) -> u32
        ensures { result ≡ dimension_number self }
    {
        match self {
            Dimension::One => 1,
            Dimension::Two => 2,
            Dimension::Three => 3,
            Dimension::Four => 4,
        }
    }

    /// How many words a block has: 4, 16, 64 or 256.
    pub fn word_count(self) -> usize
        ensures { result ≡ 4 ^ dimension_number self }
    {
        match self {
            Dimension::One => 4,
            Dimension::Two => 16,
            Dimension::Three => 64,
            Dimension::Four => 256,
        }
    }
}

impl TryFrom<u32> for Kind {
    type Error = Refusal;

    ghost try_from_gives = { λ n r. MatchResult r
        (λ kind. kind_number kind ≡ n)
        (λ e. (e ≡ Refusal.InvalidKind) × (1 < n)) };

    fn try_from(number: u32) -> Result<Self, Refusal> {
        match number {
            0 => Ok(Kind::Integers),
            1 => Ok(Kind::Floats),
            _ => Err(Refusal::InvalidKind),
        }
    }
}

impl TryFrom<u32> for Mode {
    type Error = Refusal;

    ghost try_from_gives = { λ n r. MatchResult r
        (λ mode. mode_number mode ≡ n)
        (λ e. (e ≡ Refusal.InvalidMode) × (1 < n)) };

    fn try_from(number: u32) -> Result<Self, Refusal> {
        match number {
            0 => Ok(Mode::Lossy),
            1 => Ok(Mode::Exact),
            _ => Err(Refusal::InvalidMode),
        }
    }
}

impl TryFrom<u32> for Dimension {
    type Error = Refusal;

    ghost try_from_gives = { λ n r. MatchResult r
        (λ d. dimension_number d ≡ n)
        (λ e. (e ≡ Refusal.InvalidDimension) × (1 ≤ n → 4 < n)) };

    fn try_from(number: u32) -> Result<Self, Refusal> {
        match number {
            1 => Ok(Dimension::One),
            2 => Ok(Dimension::Two),
            3 => Ok(Dimension::Three),
            4 => Ok(Dimension::Four),
            _ => Err(Refusal::InvalidDimension),
        }
    }
}
