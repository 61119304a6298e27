// A block that is put together of its four parts.
// Kinds are numbers, and the parameters come one by one: the C interface.
ghost use Rattle.std.specs.Prelude.{◌≡◌};
ghost use Rattle.sched.specs.Block.{block_of};
ghost use Rattle.flat.specs.Block.{block_type_at, bit_at, flat_block};

use flat::block::{bit, block_type, flat_block};
use flat::structs::Block;
use sched::Offset;

pub fn stripring_block_new(typ: u64, no: u64, off: u64, len: u64) -> Block
    ensures { result ≡ flat_block (block_of (block_type_at typ) (bit_at no) (record { 0 = off }) len) }
{
    flat_block(sched::Block::new(block_type(typ), bit(no), Offset(off), len))
}
