// Blocks: the three parts that the two offsets cut the buffer into.
ghost use Rattle.std.specs.Prelude.{◌≡◌};
ghost use Rattle.sched.specs.Block.{block_of};

use operations::{Offset, Refusal};

#[derive(Clone, Copy)]
pub enum Bit {
    Zero,
    One,
}

#[derive(Clone, Copy)]
pub enum BlockType {
    Free,
    Data,
}

// With `typ`, `no` says which block this is: Zero is the first that is used, One the one that comes round.
#[derive(Clone, Copy)]
pub struct Block {
    pub typ: BlockType,
    pub no: Bit,
    pub off: Offset,
    pub len: u64,
}

impl Block {
    pub fn new(typ: BlockType, no: Bit, off: Offset, len: u64) -> Block
        ensures { result ≡ block_of typ no off len }
    {
        Block { typ, no, off, len }
    }
}

// Three fields and no array, as in the Rust: each has an export of its own.
#[derive(Clone, Copy)]
pub struct Blocks(pub Block, pub Block, pub Block);

#[derive(Clone, Copy)]
pub enum BufferLayout {
    DataFreeData,
    FreeDataFree,
}

#[derive(Clone, Copy)]
pub enum BufferFillState {
    Empty,
    Partial,
    Full,
}
