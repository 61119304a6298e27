// What is lent to the ends: as a ring, a source or a destination.
ghost use Rattle.std.specs.Prelude.{◌≤◌};

use crate::numbers::{add, rem};
use std::array;
use std::ops::Range;

// No run lends more.
const ROOM: usize = 12;

// What stands in a ring before the first write. It is no byte of the stream, and no mark.
pub const OLD: u8 = 253;

// What stands in a destination before a read.
const MARK: u8 = 255;

// No heap: the bytes stand here, and the first `len` of them are lent.
#[derive(Clone, Copy, PartialEq)]
pub struct Memory {
    pub bytes: [u8; ROOM],
    pub len: u64,
}

impl Memory {
    pub fn of(byte: u8, len: u64) -> Memory {
        Memory {
            bytes: [byte; ROOM],
            len,
        }
    }

    pub fn marked(len: u64) -> Memory {
        Memory::of(MARK, len)
    }

    // The bytes that are sent, from this position on. Each is known by its position alone, and any 251 in a row differ.
    pub fn source(position: u64, len: u64) -> Memory {
        Memory {
            bytes: array::from_fn(|i| (add(position, i as u64) % 251) as u8),
            len,
        }
    }

    pub fn lent_len(&self) -> usize
        ensures { result ≤ 12 }
    {
        (self.len as usize).min(ROOM)
    }

    pub fn lent(&self) -> &[u8] {
        &self.bytes[..self.lent_len()]
    }

    // The cells from this one on, round and round.
    pub fn turned(self, first: u64) -> Memory {
        Memory {
            bytes: array::from_fn(|i| self.at(rem(add(first, i as u64), self.len))),
            len: self.len,
        }
    }

    // No run asks past the end.
    fn at(&self, i: u64) -> u8 {
        self.bytes.get(i as usize).copied().unwrap_or(0)
    }

    // How many bytes of this range differ.
    pub fn differing(&self, other: &Memory, range: Range<u64>) -> u64 {
        let pairs = self.bytes.iter().zip(other.bytes.iter());
        pairs
            .take(range.end as usize)
            .skip(range.start as usize)
            .filter(|(a, b)| a != b)
            .count() as u64
    }
}
