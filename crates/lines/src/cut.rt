// Lines out of the pieces of an input, whatever the pieces: a line that is not whole yet is held over to the next piece.
ghost use Rattle.std.specs.Prelude.{◌≡◌, ◌≤◌, ◌==◌, length, position};
ghost use Rattle.lines.specs.Cut.{hold_all, took, take_of};
ghost use Rattle.lines.specs.Text.{filled};

// How many bytes are held, the next index of the piece, and whether what is held is a whole line.
// A flag and no enum: the count and the index are there either way.
#[derive(Clone, Copy)]
pub struct Took {
    pub held: usize,
    pub next: usize,
    pub whole: bool,
}

// Holds the piece's bytes from `from` up to the next line feed, or to its end, behind the `held` bytes of before. At most `most` bytes of a
// line are held, and no more than `line` has room for; each byte behind them is passed over. The line stays a lent buffer and a count: no heap,
// and both are the host's from piece to piece.
pub fn take_line(line: &mut [u8], held: usize, most: usize, piece: &[u8], from: usize) -> Took
    ensures { took (filled result.held line.new) result.next result.whole ≡ take_of most (filled held line.old) from piece.now }
{
    let room = most.min(line.len());
    let before = held.min(room);
    let rest = &piece[from.min(piece.len())..];
    match line_feed(rest) {
        Some(n) => Took {
            held: hold(line, before, room, &rest[..n]),
            next: from + n + 1,
            whole: true,
        },
        None => Took {
            held: hold(line, before, room, rest),
            next: from + rest.len(),
            whole: false,
        },
    }
}

fn line_feed(bytes: &[u8]) -> Option<usize>
    ensures { result ≡ position (λ b. b == 10) bytes.now }
{
    bytes.iter().position(|&byte| byte == b'\n')
}

// As many of the bytes as have room behind the `held` ones; answers how many are held.
fn hold(line: &mut [u8], held: usize, most: usize, bytes: &[u8]) -> usize
    requires { (held ≤ most) × (most ≤ length line.old) }
    ensures { filled result line.new ≡ hold_all most (filled held line.old) bytes.now }
{
    let n = bytes.len().min(most - held);
    let end = held + n;
    line[held..end].copy_from_slice(&bytes[..n]);
    end
}
