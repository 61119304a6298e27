// The answers to the lines of an input, whatever its pieces: a line that is not whole yet is held over to the next piece.
ghost use Rattle.std.specs.Prelude.{◌≡◌};
ghost use Rattle.lines.specs.Answer.{step, is_ready};
ghost use Rattle.lines.specs.Text.{filled};
ghost use Rattle.planline.specs.Cut.{most_held, step_of, last_of};
ghost use Rattle.planline.specs.Text.{longest};

use crate::plan::Question;
use crate::text::{LONGEST, append};
use lines::{has_room, take_line};

// Of a line as many bytes are held: enough to tell that it is too long.
const MOST_HELD: usize = 121;

// Where a step got to: how many bytes are held, the next index of the piece, and the index behind the text. Lengths beside lent buffers,
// here and in the calls, since a caller keeps the three between calls, and the buffers in fixed memory.
#[derive(Clone, Copy)]
pub struct Cut {
    pub held: usize,
    pub next: usize,
    pub at: usize,
}

// Takes the piece's bytes from `from` on, up to the end of a line, and writes that line's answer at `at`. Nothing is taken
// where `line` is shorter than 121 bytes or the longest answer has no room.
pub fn answer_next(
    question: Question,
    line: &mut [u8],
    held: usize,
    piece: &[u8],
    from: usize,
    out: &mut [u8],
    at: usize,
) -> Cut
    ensures { step (filled result.held line.new) result.next (filled result.at out.new) ≡ step_of question (filled held line.old) from piece.now (filled at out.old) }
{
    if !is_ready(line, out, at) {
        return Cut {
            held,
            next: from,
            at,
        };
    }
    let took = take_line(line, held, MOST_HELD, piece, from);
    if took.whole {
        return Cut {
            held: 0,
            next: took.next,
            at: append(question, &line[..took.held], out, at),
        };
    }
    Cut {
        held: took.held,
        next: took.next,
        at,
    }
}

// The input's end: a last line without its line feed is answered too. Answers the index behind the text, which is `at` where there is none.
pub fn answer_last(question: Question, line: &[u8], held: usize, out: &mut [u8], at: usize) -> usize
    ensures { filled result out.new ≡ last_of question (filled held line.now) (filled at out.old) }
{
    if !is_ready(line, out, at) || held == 0 {
        return at;
    }
    append(question, &line[..held.min(MOST_HELD)], out, at)
}

// Whether the longest line that is held has room, and the longest answer.
fn is_ready(line: &[u8], out: &[u8], at: usize) -> bool
    ensures { result ≡ is_ready most_held longest line.now (filled at out.now) }
{
    MOST_HELD <= line.len() && has_room(out, at, LONGEST)
}
