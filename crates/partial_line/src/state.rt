// The types of the state: how far the listing has come, and the line so far.
ghost use Rattle.std.specs.Prelude.{◌≡◌, ◌≤◌, length};
ghost use Rattle.params.specs.Rows.{first, parameter_rows};
ghost use Rattle.params.specs.Refusals.{number_of};

use crate::MOST_HELD;
use params::{Numbers, Params, Refusal};

/// Numbers of a first line that are no parameters, and the first row that refuses them.
#[derive(Clone, Copy, Debug, PartialEq, Eq)]
pub struct BadNumbers {
    pub numbers: Numbers,
    pub refusal: Refusal,
    ghost row: { number_of refusal ≡ first (parameter_rows numbers) },
}

/// Why a first line starts no blocks.
#[derive(Clone, Copy, Debug, PartialEq, Eq)]
pub enum FirstRefusal {
    /// It is not well formed.
    IllFormed,
    BadNumbers(BadNumbers),
}

/// How far the listing has come.
#[derive(Clone, Copy)]
pub enum Stage {
    /// The first line is still to come. What the numbers are changes nothing: they are there so
    /// that a state that a caller made reads back as it was set.
    First(Numbers),
    /// Blocks of these parameters come.
    Blocks(Params),
    /// The first line was bad: nothing more will be given.
    Stopped(FirstRefusal),
}

/// The listing between two pieces of its input. The line so far is the first `len` bytes of `line`.
#[derive(Clone, Copy)]
pub struct Partial {
    pub stage: Stage,
    pub line: [u8; MOST_HELD],
    pub len: usize,
    ghost fits: { len ≤ length line },
}
