// The answers to the lines of an input, read by read.
ghost use Rattle.std.specs.Prelude.{◌≡◌, ◌≤◌, ◌<◌, ◌++◌, List, ℕ, IfOk, OnOk, length, take, drop};
ghost use Rattle.std.specs.Io.KnownBytes.{Appends, Keeps};

use anyhow::{Context, Result};
use planline::{Question, answer_last, answer_next};
use std::io::{Read, Write};

// Whom the lines ask; what is held of a line that is not whole yet; and the text that is still to be written. The memory is fixed, so a
// length stands beside each of the two buffers.
#[derive(Drop)]
pub(crate) struct Answering {
    pub question: Question,
    pub line: [u8; 121],
    pub held: usize,
    pub out: [u8; 65536],
    pub at: usize,
    pub ghost few: { held ≤ 121 },
}

impl Answering {
    ghost use Rattle.console.specs.Owed.{Answers, Proceeds, TakesTurn, ends_with, owed};

    pub(crate) fn new(question: Question) -> Answering
        ensures asks { result.question ≡ question }
        ensures held { result.held ≡ 0 }
        ensures text { result.at ≡ 0 }
    {
        Answering {
            question,
            line: [0; 121],
            held: 0,
            out: large_buffer(),
            at: 0,
        }
    }

    // A proved loop has to end, and nothing says that the input does, so its turns are counted, to a number that no run uses up.
    pub(crate) fn answer_lines<R: Read, W: Write>(
        &mut self,
        input: &mut R,
        output: &mut W,
    ) -> Result<()>
        requires held { self.old.held ≡ 0 }
        requires text { self.old.at ≡ 0 }
        ensures { OnOk result (Answers self.old.question (R.remaining input.old) (W.contents output.old) (W.contents output.new)) }
    {
        for _ in 0..u64::MAX {
            if !self.read_some(input, output)? {
                self.at = answer_last(self.question, &self.line, self.held, &mut self.out, self.at);
                return print(output, &self.out, self.at);
            }
        }
        Ok(())
    }

    // One read, and the answers to what came; whether it was not the input's end.
    fn read_some<R: Read, W: Write>(&mut self, input: &mut R, output: &mut W) -> Result<bool>
        requires { self.old.at ≡ 0 }
        ensures text { OnOk result (self.new.at ≡ 0) }
        ensures proceeds { IfOk result (λ more. Proceeds more (R.remaining input.old) (R.remaining input.new)) }
        ensures owed { OnOk result (Keeps
            (owed self.old (R.remaining input.old) (W.contents output.old))
            (owed self.new (R.remaining input.new) (W.contents output.new))) }
    {
        let mut piece = large_buffer();
        let n = input.read(&mut piece).context("standard input")?;
        if n == 0 {
            return Ok(false);
        }
        self.answer_piece(output, &piece[..n])?;
        Ok(true)
    }

    // Each turn takes bytes of the piece or makes room for the text, which is written at the end.
    fn answer_piece<W: Write>(&mut self, output: &mut W, piece: &[u8]) -> Result<()>
        ensures text { OnOk result (self.new.at ≡ 0) }
        ensures owed { OnOk result ((later : List ℕ) → Keeps
            (ends_with self.old (W.contents output.old) (piece.now ++ later))
            (ends_with self.new (W.contents output.new) later)) }
    {
        let mut next = 0;
        // A while and an index: a turn takes as much of the piece as `answer_next` says, or nothing.
        while next < piece.len() {
            next = self.answer_one(output, piece, next)?;
        }
        print(output, &self.out, self.at)?;
        self.at = 0;
        Ok(())
    }

    // One line more; where its answer has no room, the text so far makes room. Answers where the piece goes on.
    fn answer_one<W: Write>(&mut self, output: &mut W, piece: &[u8], next: usize) -> Result<usize>
        requires { next < length piece.now }
        ensures turn { IfOk result (λ more. TakesTurn (length piece.now) next self.old.at more self.new.at) }
        ensures owed { IfOk result (λ more. (later : List ℕ) → Keeps
            (ends_with self.old (W.contents output.old) (drop next piece.now ++ later))
            (ends_with self.new (W.contents output.new) (drop more piece.now ++ later))) }
    {
        let cut = answer_next(
            self.question,
            &mut self.line,
            self.held,
            piece,
            next,
            &mut self.out,
            self.at,
        );
        self.held = cut.held;
        self.at = cut.at;
        if cut.next != next {
            return Ok(cut.next);
        }
        print(output, &self.out, self.at)?;
        self.at = 0;
        Ok(next)
    }
}

// 65,536 zeros. The `ensures` keeps the proofs from writing the zeros out.
fn large_buffer() -> [u8; 65536]
    ensures { 65536 ≡ length result }
{
    [0; 65536]
}

// The first n bytes: a count and no slice, since no call of planline says outright that its text ends within the buffer. A header gives its
// length too.
pub(crate) fn print<W: Write>(output: &mut W, out: &[u8], n: usize) -> Result<()>
    ensures { OnOk result (Appends (W.contents output.old) (W.contents output.new) (take n out.now)) }
{
    output
        .write_all(&out[..n.min(out.len())])
        .context("standard output")
}
