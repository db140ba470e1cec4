// The record of a transfer, which a caller keeps between pieces, and which records count as open.
ghost use Rattle.std.specs.Prelude.{◌≡◌, true, false, ltb, ◌^◌, MatchResult};
ghost use Rattle.fpc.specs.declared.refusal.StreamRefusal.{StreamRefusal};
ghost use Rattle.fpc_step.specs.Calls.{predictors_of};
ghost use Rattle.transfer_step.specs.declared.machine.State.{State};
ghost use Rattle.transfer_step.specs.Record.{state_number, machine_of, transfer};
ghost use Rattle.transfer_step.specs.Record.{held_below, given_fits, fit};
ghost use Rattle.transfer_step.specs.Calls.{Holds};

use crate::machine::{Machine, State};
use fpc::refusal::StreamRefusal;
use fpc::tables::good_size;
use fpc_step::predictors::Predictors;
use fpc_stream::code::remaining_count;

/// The record of a transfer, as it is kept between pieces.
///
/// `state` is where it stands: 0 closed, 1 at a pair's byte, 2 in its first double, 3 in its
/// second, 4 after the odd end, 5 damaged. `given` says how many doubles it has given; `pair` is
/// the byte of the last pair begun, `held` bytes of the double in hand have come, and `value` is
/// their number. `last`, `h` and `g` are the predictors', `size` is the length of the tables.
#[repr(C)]
#[derive(Clone, Copy, Debug, PartialEq, Eq)]
pub struct Transfer {
    pub state: u32,
    pub given: u32,
    pub pair: u32,
    pub held: u32,
    pub value: u64,
    pub last: u64,
    pub size: usize,
    pub h: usize,
    pub g: usize,
}

/// A closed record.
pub const CLOSED: Transfer = Transfer {
    state: 0,
    given: 0,
    pair: 0,
    held: 0,
    value: 0,
    last: 0,
    size: 0,
    h: 0,
    g: 0,
};

impl State {
    /// Its number in the record.
    pub fn number(self) -> u32
        ensures { result ≡ state_number self }
    {
        match self {
            State::AtPair => 1,
            State::InFirst => 2,
            State::InSecond => 3,
            State::Ended => 4,
            State::Damaged => 5,
        }
    }
}

impl TryFrom<u32> for State {
    type Error = StreamRefusal;

    ghost try_from_gives = { λ n r. MatchResult r (λ s. state_number s ≡ n)
        (λ e. (e ≡ StreamRefusal.TransferClosed) × ((s : State) → state_number s ≡ n → ⊥)) };

    fn try_from(number: u32) -> Result<State, StreamRefusal> {
        match number {
            1 => Ok(State::AtPair),
            2 => Ok(State::InFirst),
            3 => Ok(State::InSecond),
            4 => Ok(State::Ended),
            5 => Ok(State::Damaged),
            _ => Err(StreamRefusal::TransferClosed),
        }
    }
}

// Fewer bytes are held than this; outside a double, none.
fn held_below(state: State, pair: u32) -> u32
    ensures { result ≡ held_below (state_number state) pair }
{
    match state {
        State::InFirst => remaining_count(pair / 16 % 8) as u32,
        State::InSecond => remaining_count(pair % 16 % 8) as u32,
        _ => 1,
    }
}

// Whether x is a number of n bytes.
fn in_bytes(x: u64, n: u32) -> bool
    ensures { result ≡ ltb x (256 ^ n) }
{
    n >= 8 || x < 1 << (8 * n)
}

// Whether as many doubles can have been given in this state: they come in pairs, and a full run
// begins no pair.
fn given_fits(state: State, given: u32) -> bool
    ensures { result ≡ given_fits (state_number state) given }
{
    match state {
        State::AtPair => given % 2 == 0,
        State::InFirst => given % 2 == 0 && given != 4096,
        State::InSecond | State::Ended => given % 2 == 1,
        State::Damaged => true,
    }
}

// Whether the record's numbers are in range and go together.
#[tactic(auto, unfolding(crate::specs::Record::fit))]
fn fits(t: Transfer, state: State) -> bool
    requires { state_number state ≡ t.state }
    ensures { result ≡ fit t }
{
    good_size(t.size)
        && t.h < t.size
        && t.g < t.size
        && t.given <= 4096
        && given_fits(state, t.given)
        && t.pair < 256
        && t.held < held_below(state, t.pair)
        && in_bytes(t.value, t.held)
}

/// The machine of an open record. All that an opening and pieces make are open; any other counts as
/// closed.
impl TryFrom<Transfer> for Machine {
    type Error = StreamRefusal;

    ghost try_from_gives = { λ t r. MatchResult r (λ m. (fit t ≡ true) × Holds t m)
        (λ e. (e ≡ StreamRefusal.TransferClosed) × (fit t ≡ false)) };

    fn try_from(t: Transfer) -> Result<Machine, StreamRefusal> {
        let state = State::try_from(t.state)?;
        if fits(t, state) {
            Ok(Machine {
                state,
                given: t.given,
                pair: t.pair,
                held: t.held,
                value: t.value,
            })
        } else {
            Err(StreamRefusal::TransferClosed)
        }
    }
}

impl Transfer {
    /// Keeps what the machine and the predictors are after more of the stream.
    pub fn keep(&mut self, machine: Machine, predictors: &Predictors)
        ensures { self.new
            ≡ transfer (machine_of self.old.size machine (predictors_of predictors.now)) }
    {
        *self = Transfer {
            state: machine.state.number(),
            given: machine.given,
            pair: machine.pair,
            held: machine.held,
            value: machine.value,
            last: predictors.last,
            size: self.size,
            h: predictors.h,
            g: predictors.g,
        };
    }
}
