// Text behind an index of a lent buffer.
// Buffer and index stay two arguments: a struct of both would be made for each call, since the buffer is lent for a call and the index kept.
ghost use Rattle.std.specs.Prelude.{◌≡◌};
ghost use Rattle.lines.specs.Text.{filled, has_room, put_of};

// The bytes at `at`; answers the index behind them. Without room for all of them nothing changes, and the index is `at`: an index either way
// and no Option, so that who writes text after text asks nothing between.
pub fn put(out: &mut [u8], at: usize, bytes: &[u8]) -> usize
    ensures { filled result out.new ≡ put_of bytes.now (filled at out.old) }
{
    if !has_room(out, at, bytes.len()) {
        return at;
    }
    let end = at + bytes.len();
    out[at..end].copy_from_slice(bytes);
    end
}

// Whether a text of `longest` bytes has room behind `at`.
pub fn has_room(out: &[u8], at: usize, longest: usize) -> bool
    ensures { result ≡ has_room longest (filled at out.now) }
{
    longest <= out.len() && at <= out.len() - longest
}
