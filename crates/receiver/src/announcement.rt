// A chunk's announcement: one byte on the socket, and a header of 8 bytes in the ring.
ghost use Rattle.std.specs.Prelude.{◌≡◌, ◌≤◌, length};
ghost use Rattle.sched.specs.Scheduler.{space_in};
ghost use Rattle.receiver.specs.Receiver.{header_in, announced_in, byte_in};

use crate::receiver::Beside;
use sched::{HEADER_LEN, OperationType, Sound};
use states::{Failure, Violation};

// A header is 2 bits of format, 14 of the strip's tag and 48 of the body's length.
const FORMATS: u64 = 1 << 62;

const LENGTHS: u64 = 1 << 48;

// The scheduler before a chunk, or with the chunk written, and what comes beside its byte.
#[derive(Clone, Copy)]
pub struct Announced {
    pub scheduler: Sound,
    pub beside: Beside,
}

impl Announced {
    // Header and body are registered as written, and the header is read; 8 bytes stay free behind the body.
    #[tactic(auto, using(crate::proofs::ChunkLaws::chunk_moves))]
    fn write_chunk(self, header: u64) -> Result<Announced, Failure>
        requires { 8 ≤ space_in self.scheduler }
        ensures { result ≡ header_in self.scheduler self.beside header }
    {
        if header / FORMATS != 0 {
            return Err(Failure::Protocol(Violation::UnknownHeader));
        }
        let len = header % LENGTHS;
        if len == 0 {
            return Err(Failure::Protocol(Violation::InvalidChunkLength));
        }
        let space = self.scheduler.greatest(OperationType::Write);
        if !sched::body_fits(space, len) {
            return Err(Failure::Protocol(Violation::of_body(space, len)));
        }
        let written = self.scheduler.moved(OperationType::Write, HEADER_LEN);
        let read = written.moved(OperationType::Read, HEADER_LEN);
        let scheduler = read.moved(OperationType::Write, len);
        Ok(Announced { scheduler, ..self })
    }

    // The header goes on at the ring's start where it passes the ring's end.
    #[tactic(auto, using(crate::proofs::ChunkLaws::header_is))]
    fn read_header(self, ring: &[u8]) -> Result<Announced, Failure>
        requires { length ring.now ≡ self.scheduler.buf_len }
        ensures { result ≡ announced_in ring.now self.scheduler self.beside }
    {
        let space = self.scheduler.greatest(OperationType::Write);
        if space < HEADER_LEN {
            return Err(Failure::Protocol(Violation::of_header(space)));
        }
        let off = self.scheduler.offset(OperationType::Read);
        self.write_chunk(copies::big_endian(ring, off.0))
    }

    pub(crate) fn recv_chunk_announcement(
        self,
        ring: &[u8],
        byte: u64,
    ) -> Result<Announced, Failure>
        requires { length ring.now ≡ self.scheduler.buf_len }
        ensures { result ≡ byte_in ring.now self.scheduler byte self.beside }
    {
        if byte != 0 {
            return Err(Failure::Protocol(Violation::InvalidChunkAnnouncement));
        }
        self.read_header(ring)
    }
}
