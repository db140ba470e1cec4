// What the exported calls on streams answer.
ghost use Rattle.std.specs.Prelude.{◌≡◌};
ghost use Rattle.windlassow.specs.Streams.{counted, settled};

use fpc::refusal::StreamRefusal;

/// What a call on a stream answers: 0 or the number of the refusal, and a count.
#[repr(C)]
#[derive(Clone, Copy, Debug, PartialEq, Eq)]
pub struct StreamReply {
    pub answer: u32,
    pub count: u32,
}

impl From<Result<u32, StreamRefusal>> for StreamReply {
    ghost from_gives = { λ r reply. reply ≡ counted r };

    fn from(done: Result<u32, StreamRefusal>) -> StreamReply {
        match done {
            Ok(count) => StreamReply { answer: 0, count },
            Err(refusal) => StreamReply {
                answer: refusal.number(),
                count: refusal.count(),
            },
        }
    }
}

impl From<Result<(), StreamRefusal>> for StreamReply {
    ghost from_gives = { λ r reply. reply ≡ settled r };

    fn from(done: Result<(), StreamRefusal>) -> StreamReply {
        match done {
            Ok(()) => StreamReply {
                answer: 0,
                count: 0,
            },
            Err(refusal) => StreamReply {
                answer: refusal.number(),
                count: refusal.count(),
            },
        }
    }
}
