// Why a call on a stream is refused.
ghost use Rattle.std.specs.Prelude.{◌≡◌};
ghost use Rattle.fpc.specs.Refusal.{number_of, count_of};

use std::error::Error;
use std::fmt;

/// Why a call on an FPC stream, whole or in pieces, was refused.
///
/// `OutputTooLong` and `NotAStream` leave both tables zero, and `Damaged` comes with the doubles
/// before the damage. The others change no buffer.
#[derive(Clone, Copy, Debug, PartialEq, Eq)]
pub enum StreamRefusal {
    /// 20: the tables are not of one length that is a power of two from 16 to 1,024; or, of a
    /// piece, not of that of the opening.
    InvalidTables,
    /// 21: more than 4,096 doubles to write, or more than 65,536 bytes to read.
    InputTooLong,
    /// 22: the output is longer than the room lent. It needs so many bytes or, when reading,
    /// doubles.
    OutputTooLong { needed: u32 },
    /// 23: the bytes are not the stream, for tables of this size, of any run of at most 4,096
    /// doubles.
    NotAStream,
    /// 22 of a piece: there is room for fewer doubles than twice its bytes, which is what is
    /// needed.
    PieceRoom { needed: u32 },
    /// 23 of a piece: what came is not how a stream of at most 4,096 doubles begins. This piece
    /// gave so many doubles.
    Damaged { doubles: u32 },
    /// 23 of a close: what came is not a whole stream.
    NotWhole,
    /// 25: the transfer is not open.
    TransferClosed,
}

impl StreamRefusal {
    /// The answer number.
    pub fn number(self) -> u32
        ensures { result ≡ number_of self }
    {
        match self {
            StreamRefusal::InvalidTables => 20,
            StreamRefusal::InputTooLong => 21,
            StreamRefusal::OutputTooLong { .. } | StreamRefusal::PieceRoom { .. } => 22,
            StreamRefusal::NotAStream | StreamRefusal::Damaged { .. } | StreamRefusal::NotWhole =>
                23,
            StreamRefusal::TransferClosed => 25,
        }
    }

    /// The count that is returned with it: what was needed, or the doubles before the damage; else
    /// 0.
    pub fn count(self) -> u32
        ensures { result ≡ count_of self }
    {
        match self {
            StreamRefusal::OutputTooLong { needed } | StreamRefusal::PieceRoom { needed } => needed,
            StreamRefusal::Damaged { doubles } => doubles,
            _ => 0,
        }
    }
}

impl fmt::Display for StreamRefusal {
    fn fmt<W: fmt::Write>(&self, f: &mut fmt::Formatter<W>) -> fmt::Result {
        match *self {
            StreamRefusal::InvalidTables => write!(
                f,
                "the tables are not of one length that is a power of two from 16 to 1,024"
            ),
            StreamRefusal::InputTooLong => {
                write!(f, "the input is above 4,096 doubles or 65,536 bytes")
            }
            StreamRefusal::OutputTooLong { needed } => {
                write!(
                    f,
                    "the output is longer than the room lent: it needs {needed}"
                )
            }
            StreamRefusal::NotAStream => write!(
                f,
                "the bytes are not the FPC stream of any run of at most 4,096 doubles"
            ),
            StreamRefusal::PieceRoom { needed } => {
                write!(
                    f,
                    "the room is not for the {needed} doubles that a piece may give"
                )
            }
            StreamRefusal::Damaged { doubles } => {
                write!(
                    f,
                    "the stream is damaged after {doubles} doubles of this piece"
                )
            }
            StreamRefusal::NotWhole => write!(f, "what came is not a whole FPC stream"),
            StreamRefusal::TransferClosed => write!(f, "the transfer is not open"),
        }
    }
}

impl Error for StreamRefusal {}
