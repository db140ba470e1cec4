// Parameters that the first rows of the table of answers pass, and the sizes that follow from them.
ghost use Rattle.std.specs.Prelude.{◌≡◌, ◌*◌, ◌≤◌, ◌<◌, ◌+◌, cond, true, false};
ghost use Rattle.std.specs.Prelude.{IfOk, IfErr, OnOk, OnErr};
ghost use Rattle.params.specs.declared.refusal.Refusal.{Refusal};
ghost use Rattle.params.specs.Choices.{kind_number, mode_number, dimension_number};
ghost use Rattle.params.specs.Refusals.{number_of, count_of};
ghost use Rattle.params.specs.Dimension.{most_words, top_dimension};
ghost use Rattle.params.specs.Width.{float, exact, word_count, widest_slot, width_of, good_width};
ghost use Rattle.params.specs.Lowest.{lowest_offset};
ghost use Rattle.params.specs.Rows.{first, parameter_rows};
ghost use Rattle.params.specs.Allowed.{allowed_rows};

use crate::{Dimension, Kind, LOWEST_OFFSET, Mode, Numbers, Refusal, WIDEST};
use std::marker::Model;

/// What a call allows: kinds and modes from these on, and dimensions up to this one.
#[derive(Clone, Copy, Debug, PartialEq, Eq)]
pub struct Allowed {
    pub kind: Kind,
    pub mode: Mode,
    pub dimension: Dimension,
}

impl Allowed {
    /// Both kinds, both modes, every dimension.
    pub const ALL: Allowed = Allowed {
        kind: Kind::Integers,
        mode: Mode::Lossy,
        dimension: Dimension::Four,
    };

    /// Exact mode alone.
    pub const EXACT: Allowed = Allowed {
        kind: Kind::Integers,
        mode: Mode::Exact,
        dimension: Dimension::Four,
    };
}

/// Parameters that rows 1 to 5 and 13 pass. In clauses they are the numbers that a caller gave.
#[derive(Clone, Copy, Debug)]
pub struct Params {
    kind: Kind,
    dimension: Dimension,
    mode: Mode,
    // From 1 to 32.
    planes: u32,
    // 0, or from 16 to the widest.
    width: u32,
    // Up to twice what a lowest exponent is raised by.
    lowest: u32,
}

impl Model for Params {
    ghost use Rattle.params.specs.declared.Numbers.{Numbers};

    ghost Value = { Numbers };

    ghost use Rattle.params.specs.Good.{numbers, fields, IsGood};
    ghost use Rattle.params.specs.Fields.{fields_back};

    ghost view = { numbers };

    ghost invariant = { IsGood };

    ghost inverse = { fields };

    ghost inverse_ok = { fields_back };
}

fn kind(number: u32, lowest: Kind) -> Result<Kind, Refusal>
    ensures kind { IfOk result (λ kind. kind_number kind ≡ number) }
    ensures from { OnOk result (kind_number lowest ≤ number) }
    ensures refusal { IfErr result (λ e. e ≡ Refusal.InvalidKind) }
    ensures refused { OnErr result (kind_number lowest ≤ number → 1 < number) }
{
    let kind = Kind::try_from(number)?;
    if kind.number() < lowest.number() {
        return Err(Refusal::InvalidKind);
    }
    Ok(kind)
}

fn dimension(number: u32, greatest: Dimension) -> Result<Dimension, Refusal>
    ensures dimension { IfOk result (λ d. dimension_number d ≡ number) }
    ensures to { OnOk result (number ≤ dimension_number greatest) }
    ensures refusal { IfErr result (λ e. e ≡ Refusal.InvalidDimension) }
    ensures refused { OnErr result (1 ≤ number → dimension_number greatest < number) }
{
    let dimension = Dimension::try_from(number)?;
    if greatest.number() < dimension.number() {
        return Err(Refusal::InvalidDimension);
    }
    Ok(dimension)
}

fn mode(number: u32, lowest: Mode) -> Result<Mode, Refusal>
    ensures mode { IfOk result (λ mode. mode_number mode ≡ number) }
    ensures from { OnOk result (mode_number lowest ≤ number) }
    ensures refusal { IfErr result (λ e. e ≡ Refusal.InvalidMode) }
    ensures refused { OnErr result (mode_number lowest ≤ number → 1 < number) }
{
    let mode = Mode::try_from(number)?;
    if mode.number() < lowest.number() {
        return Err(Refusal::InvalidMode);
    }
    Ok(mode)
}

fn planes(number: u32) -> Result<u32, Refusal>
    ensures planes { IfOk result (λ p. p ≡ number) }
    ensures from { OnOk result (1 ≤ number) }
    ensures to { OnOk result (number ≤ 32) }
    ensures refusal { IfErr result (λ e. e ≡ Refusal.InvalidPlanes) }
    ensures refused { OnErr result (1 ≤ number → 32 < number) }
{
    if (1..=32).contains(&number) {
        Ok(number)
    } else {
        Err(Refusal::InvalidPlanes)
    }
}

fn width(number: u32) -> Result<u32, Refusal>
    ensures width { IfOk result (λ w. w ≡ number) }
    ensures good { OnOk result (good_width number ≡ true) }
    ensures refusal { IfErr result (λ e. e ≡ Refusal.InvalidWidth) }
    ensures refused { OnErr result (good_width number ≡ false) }
{
    if number == 0 || (16..=WIDEST).contains(&number) {
        Ok(number)
    } else {
        Err(Refusal::InvalidWidth)
    }
}

fn lowest(number: u32) -> Result<u32, Refusal>
    ensures lowest { IfOk result (λ q. q ≡ number) }
    ensures to { OnOk result (number ≤ 2 * lowest_offset) }
    ensures refusal { IfErr result (λ e. e ≡ Refusal.InvalidLowest) }
    ensures refused { OnErr result (2 * lowest_offset < number) }
{
    if number <= 2 * LOWEST_OFFSET {
        Ok(number)
    } else {
        Err(Refusal::InvalidLowest)
    }
}

// What a width of 0 stands for, for blocks of N words: full slots in exact mode.
#[inline]
pub(crate) fn zero_width(exact: bool, n: usize) -> usize
    requires { n ≤ most_words }
    ensures { result ≡ cond exact (33 * n + 14) (8 * n) }
{
    if exact { 33 * n + 14 } else { 8 * n }
}

impl Params {
    /// The parameters, or the first row that applies.
    pub fn new(numbers: Numbers, allowed: Allowed) -> Result<Self, Refusal>
        ensures good { IfOk result (λ p. p ≡ numbers) }
        ensures passed { IfOk result (λ _. first (allowed_rows allowed numbers) ≡ 0) }
        ensures refused { IfErr result (λ e. number_of e ≡ first (allowed_rows allowed numbers)) }
        ensures bare { IfErr result (λ e. count_of e ≡ 0) }
    {
        Ok(Params {
            kind: kind(numbers.kind, allowed.kind)?,
            dimension: dimension(numbers.dimension, allowed.dimension)?,
            mode: mode(numbers.mode, allowed.mode)?,
            planes: planes(numbers.planes)?,
            width: width(numbers.width)?,
            lowest: lowest(numbers.lowest)?,
        })
    }

    /// The numbers that a caller gave for them.
    #[tactic(auto, using(crate::proofs::Inside::numbers_pass, crate::proofs::Inside::width_from, crate::proofs::Inside::width_to))]
    pub fn numbers(&self) -> Numbers
        ensures numbers { result ≡ self.now }
        ensures passed { first (parameter_rows self.now) ≡ 0 }
        ensures from { 1 ≤ self.now.dimension }
        ensures to { self.now.dimension ≤ top_dimension }
        ensures some { 16 ≤ width_of self.now }
        ensures most { width_of self.now ≤ widest_slot }
    {
        Numbers {
            kind: self.kind.number(),
            dimension: self.dimension.number(),
            mode: self.mode.number(),
            planes: self.planes,
            width: self.width,
            lowest: self.lowest,
        }
    }

    /// The same with full slots.
    pub fn with_full_slots(&self) -> Self
        ensures { result ≡ record self.now { width = 0 } }
    {
        Params { width: 0, ..*self }
    }

    pub fn kind(&self) -> Kind
        ensures { kind_number result ≡ self.now.kind }
    {
        self.kind
    }

    pub fn is_float(&self) -> bool
        ensures { result ≡ float self.now }
    {
        Kind::Floats == self.kind
    }

    #[tactic(auto, using(crate::proofs::Inside::numbers_pass))]
    pub fn dimension(&self) -> Dimension
        ensures dimension { dimension_number result ≡ self.now.dimension }
        ensures passed { first (parameter_rows self.now) ≡ 0 }
    {
        self.dimension
    }

    pub fn mode(&self) -> Mode
        ensures { mode_number result ≡ self.now.mode }
    {
        self.mode
    }

    pub fn is_exact(&self) -> bool
        ensures { result ≡ exact self.now }
    {
        Mode::Exact == self.mode
    }

    /// How many planes are asked for.
    pub fn planes(&self) -> u32
        ensures planes { result ≡ self.now.planes }
        ensures some { 1 ≤ result }
        ensures most { result ≤ 32 }
    {
        self.planes
    }

    /// The lowest exponent, raised by `LOWEST_OFFSET`.
    pub fn lowest(&self) -> u32
        ensures lowest { result ≡ self.now.lowest }
        ensures most { result ≤ 2 * lowest_offset }
    {
        self.lowest
    }

    /// N: how many words a block has.
    #[tactic(auto, using(crate::proofs::Inside::numbers_pass))]
    pub fn word_count(&self) -> usize
        ensures count { result ≡ word_count self.now }
        ensures passed { first (parameter_rows self.now) ≡ 0 }
        ensures some { 4 ≤ result }
        ensures most { result ≤ most_words }
    {
        Dimension::word_count(self.dimension)
    }

    /// W, the bits of a slot. A width of 0 stands for 33N + 14 bits in exact mode, else for 8N.
    #[tactic(auto, using(crate::proofs::Inside::numbers_pass), unfolding(crate::specs::Width::zero_width))]
    pub fn width(&self) -> usize
        ensures width { result ≡ width_of self.now }
        ensures passed { first (parameter_rows self.now) ≡ 0 }
        ensures some { 16 ≤ result }
        ensures most { result ≤ widest_slot }
    {
        if self.width != 0 {
            return self.width as usize;
        }
        zero_width(self.is_exact(), self.word_count())
    }
}
