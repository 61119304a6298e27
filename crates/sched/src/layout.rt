// Where the data lies in the buffer: its layout, the three blocks that the two offsets cut, and the block of the next operation.
ghost use Rattle.std.specs.Prelude.{◌≡◌};
ghost use Rattle.sched.specs.Scheduler.{layout_in, blocks_in, next_block_in, layout_of, blocks_of, block0_from, block1_from, block2_from, off_from, len_from, next_block_of};

use crate::block::{Bit, Block, BlockType, Blocks, BufferLayout};
use crate::scheduler::RingBufferScheduler;
use crate::sound::Sound;
use operations::{Offset, OperationType, Refusal};

impl RingBufferScheduler {
    pub fn layout(self) -> Result<BufferLayout, Refusal>
        ensures { result ≡ layout_of self }
    {
        Ok(self.sound()?.layout_in())
    }

    pub fn blocks(self) -> Result<Blocks, Refusal>
        ensures { result ≡ blocks_of self }
    {
        Ok(self.sound()?.blocks_in())
    }

    // Each block by a name, as the Rust and the exports have them.
    pub fn block_0(self) -> Result<Block, Refusal>
        ensures { result ≡ block0_from (blocks_of self) }
    {
        Ok(self.blocks()?.0)
    }

    pub fn block_1(self) -> Result<Block, Refusal>
        ensures { result ≡ block1_from (blocks_of self) }
    {
        Ok(self.blocks()?.1)
    }

    pub fn block_2(self) -> Result<Block, Refusal>
        ensures { result ≡ block2_from (blocks_of self) }
    {
        Ok(self.blocks()?.2)
    }

    pub fn block_0_off(self) -> Result<Offset, Refusal>
        ensures { result ≡ off_from (block0_from (blocks_of self)) }
    {
        Ok(self.block_0()?.off)
    }

    pub fn block_1_off(self) -> Result<Offset, Refusal>
        ensures { result ≡ off_from (block1_from (blocks_of self)) }
    {
        Ok(self.block_1()?.off)
    }

    pub fn block_2_off(self) -> Result<Offset, Refusal>
        ensures { result ≡ off_from (block2_from (blocks_of self)) }
    {
        Ok(self.block_2()?.off)
    }

    pub fn block_0_len(self) -> Result<u64, Refusal>
        ensures { result ≡ len_from (block0_from (blocks_of self)) }
    {
        Ok(self.block_0()?.len)
    }

    pub fn block_1_len(self) -> Result<u64, Refusal>
        ensures { result ≡ len_from (block1_from (blocks_of self)) }
    {
        Ok(self.block_1()?.len)
    }

    pub fn block_2_len(self) -> Result<u64, Refusal>
        ensures { result ≡ len_from (block2_from (blocks_of self)) }
    {
        Ok(self.block_2()?.len)
    }

    pub fn next_operation_block(self, op: OperationType) -> Result<Block, Refusal>
        ensures { result ≡ next_block_of self op }
    {
        Ok(self.sound()?.next_block_in(op))
    }

    pub fn next_read_block(self) -> Result<Block, Refusal>
        ensures { result ≡ next_block_of self OperationType.Read }
    {
        self.next_operation_block(OperationType::Read)
    }

    pub fn next_write_block(self) -> Result<Block, Refusal>
        ensures { result ≡ next_block_of self OperationType.Write }
    {
        self.next_operation_block(OperationType::Write)
    }
}

// ---- of a sound scheduler

impl Sound {
    fn layout_in(self) -> BufferLayout
        ensures { result ≡ layout_in self }
    {
        let read = self.offset(OperationType::Read).0;
        let write = self.offset(OperationType::Write).0;
        if read < write {
            return BufferLayout::FreeDataFree;
        }
        if write < read {
            return BufferLayout::DataFreeData;
        }
        if self.data_in() == 0 {
            return BufferLayout::FreeDataFree;
        }
        BufferLayout::DataFreeData
    }

    fn blocks_in(self) -> Blocks
        ensures { result ≡ blocks_in self }
    {
        let read = self.offset(OperationType::Read).0;
        let write = self.offset(OperationType::Write).0;
        let low = read.min(write);
        let high = read.max(write);
        let last = self.scheduler.buf_len - high;
        match self.layout_in() {
            BufferLayout::DataFreeData => Blocks(
                Block::new(BlockType::Data, Bit::One, Offset(0), low),
                Block::new(BlockType::Free, Bit::Zero, Offset(low), high - low),
                Block::new(BlockType::Data, Bit::Zero, Offset(high), last),
            ),
            BufferLayout::FreeDataFree => Blocks(
                Block::new(BlockType::Free, Bit::One, Offset(0), low),
                Block::new(BlockType::Data, Bit::Zero, Offset(low), high - low),
                Block::new(BlockType::Free, Bit::Zero, Offset(high), last),
            ),
        }
    }

    pub(crate) fn next_block_in(self, op: OperationType) -> Block
        ensures { result ≡ next_block_in self op }
    {
        let blocks = self.blocks_in();
        match self.layout_in() {
            BufferLayout::DataFreeData => match op {
                OperationType::Read => blocks.2,
                OperationType::Write => blocks.1,
            },
            BufferLayout::FreeDataFree => match op {
                OperationType::Read => blocks.1,
                OperationType::Write => blocks.2,
            },
        }
    }
}
