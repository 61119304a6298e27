// A block as four numbers, and back; a layout and a fill state as one.
// An answer is a struct of C with fields of its own (the C interface): a `match` for each.
ghost use Rattle.std.specs.Prelude.{◌≡◌};
ghost use Rattle.flat.specs.Block.{block_type_at, bit_at, flat_block, flat_block_answer, flat_blocks, flat_layout, flat_fill_state};

use crate::counter::flat_amount;
use crate::refusal::flat_refusal;
use crate::structs::{Block, BlockAnswer, BlocksAnswer, U64Answer};
use sched::{Bit, BlockType, BufferFillState, BufferLayout};

// A number for a kind: the C interface.
#[tactic(auto, unfolding(crate::specs::Block::block_type_at))]
pub fn block_type(typ: u64) -> BlockType
    ensures { result ≡ block_type_at typ }
{
    match typ {
        0 => BlockType::Free,
        _ => BlockType::Data,
    }
}

// A number for a kind: the C interface.
#[tactic(auto, unfolding(crate::specs::Block::bit_at))]
pub fn bit(no: u64) -> Bit
    ensures { result ≡ bit_at no }
{
    match no {
        0 => Bit::Zero,
        _ => Bit::One,
    }
}

// The variants stand in the order of C's numbers; the clauses, here and below, hold them to it.
pub fn flat_block(b: sched::Block) -> Block
    ensures { result ≡ flat_block b }
{
    Block {
        typ: b.typ as u64,
        no: b.no as u64,
        off: b.off.0,
        len: b.len,
    }
}

pub fn flat_block_answer(a: Result<sched::Block, sched::Refusal>) -> BlockAnswer
    ensures { result ≡ flat_block_answer a }
{
    match a {
        Ok(b) => BlockAnswer {
            block: flat_block(b),
            ..Default::default()
        },
        Err(e) => BlockAnswer {
            refusal: flat_refusal(e),
            ..Default::default()
        },
    }
}

pub fn flat_blocks(a: Result<sched::Blocks, sched::Refusal>) -> BlocksAnswer
    ensures { result ≡ flat_blocks a }
{
    match a {
        Ok(b) => BlocksAnswer {
            block_0: flat_block(b.0),
            block_1: flat_block(b.1),
            block_2: flat_block(b.2),
            ..Default::default()
        },
        Err(e) => BlocksAnswer {
            refusal: flat_refusal(e),
            ..Default::default()
        },
    }
}

pub fn flat_layout(a: Result<BufferLayout, sched::Refusal>) -> U64Answer
    ensures { result ≡ flat_layout a }
{
    flat_amount(a.map(|layout| layout as u64))
}

pub fn flat_fill_state(a: Result<BufferFillState, sched::Refusal>) -> U64Answer
    ensures { result ≡ flat_fill_state a }
{
    flat_amount(a.map(|fill| fill as u64))
}
