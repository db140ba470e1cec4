// Bytes written to a lent slice.
ghost use Rattle.std.specs.Prelude.{◌≡◌, ◌+◌, ◌^◌, ◌<◌, ◌≤◌, length, slice_set};

use crate::{CodedDouble, slices};
use fpc_stream::code::remaining_count;

/// Bytes written to a lent slice one after the other. What has no room is left out, and the place
/// moves on all the same.
#[derive(Drop)]
pub struct Sink<'a> {
    pub out: &'a mut [u8],
    pub at: usize,
}

impl Sink<'_> {
    ghost use Rattle.fpc_step.specs.Calls.{pair_of, Appended};

    /// Puts one byte.
    #[inline]
    pub fn put(&mut self, b: u8)
        requires { self.old.at < 2 ^ 63 }
        ensures same { self.new.out.ghost_name ≡ self.old.out.ghost_name }
        ensures moved { self.new.at ≡ self.old.at + 1 }
        ensures put { self.new.out.now ≡ slice_set self.old.out.now self.old.at b }
    {
        slices::put(self.out, self.at, b);
        self.at += 1;
    }

    /// Puts bytes, one after the other.
    #[inline]
    pub fn put_bytes(&mut self, bytes: &[u8])
        requires { self.old.at + length bytes.now ≤ 2 ^ 63 }
        ensures same { self.new.out.ghost_name ≡ self.old.out.ghost_name }
        ensures appended { Appended self.old.out.now self.old.at bytes.now
            self.new.at self.new.out.now }
    {
        let mut at = self.at;
        for &b in bytes {
            slices::put(self.out, at, b);
            at += 1;
        }
        self.at = at;
    }

    /// Puts two doubles as they are written, in one pair: the halves in one byte, then what remains
    /// of both xors.
    #[inline]
    pub fn put_pair(&mut self, a: CodedDouble, b: CodedDouble)
        requires near { self.old.at ≤ 2 ^ 20 }
        requires a_half { a.nibble < 16 }
        requires b_half { b.nibble < 16 }
        ensures same { self.new.out.ghost_name ≡ self.old.out.ghost_name }
        ensures appended { Appended self.old.out.now self.old.at (pair_of a b)
            self.new.at self.new.out.now }
    {
        self.put((16 * a.nibble + b.nibble) as u8);
        self.put_bytes(&a.xor.to_le_bytes()[..remaining_count(a.nibble % 8)]);
        self.put_bytes(&b.xor.to_le_bytes()[..remaining_count(b.nibble % 8)]);
    }
}
