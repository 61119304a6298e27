// A chunk in the ring: a header, and behind it a body.
ghost use Rattle.std.specs.Prelude.{◌≡◌};
ghost use Rattle.sched.specs.Chunk.{body_fits};

pub const HEADER_LEN: u64 = 8;

// Whether a body of n bytes and its header fit into a ring of this length: a compare before the sum.
pub fn body_fits(buf_len: u64, n: u64) -> bool
    ensures { result ≡ body_fits buf_len n }
{
    HEADER_LEN <= buf_len && n <= buf_len - HEADER_LEN
}
