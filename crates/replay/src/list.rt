// Reads a list, holds each of its lines against the code, and prints how many differ.
ghost use Rattle.std.specs.Prelude.{◌≡◌, ◌≤◌, IfOk, length};

use crate::line::Line;
use std::fs::File;
use std::io::Read;
use std::rt::Files;
use std::{fmt, io};

// What the lines so far came to; `lines` counts the text too.
#[derive(Clone, Copy, Default)]
struct Tally {
    lines: u64,
    answers: u64,
    differences: u64,
}

// Prints how many lines of the list are not what the calls answer, which `agrees` tells of a line. Of a file that is too long there are not
// as many answers as `stdout` says; one that is missing ends the run.
pub fn replay<F: Fn(&[u64]) -> bool>(
    rt: &(impl Files + Print),
    name: &str,
    path: &str,
    agrees: F,
) -> io::Result<()>
    requires { F.IsAlwaysCallable agrees }
{
    let mut text = room();
    let mut file = File::open(rt, path)?;
    let n = read_full(&mut file, &mut text)?;
    let tally = compared(rt, &agrees, &text[..n])?;
    println!(rt; "{name}: {tally}")
}

// Reads until the text is full or the file ends, and returns how many bytes stand at the text's start. A proved loop has to end, and
// nothing says that the file does, so its turns are counted.
fn read_full(file: &mut impl Read, text: &mut [u8]) -> io::Result<usize>
    ensures { IfOk result (λ n. n ≤ length text.new) }
{
    let mut done = 0;
    for _ in 0..u64::MAX {
        let n = file.read(&mut text[done..])?;
        if n == 0 {
            break;
        }
        done += n;
    }
    Ok(done)
}

// No heap, and no list is so long. The `ensures` keeps the proofs from writing the zeros out.
fn room() -> [u8; 1048576]
    ensures { 1048576 ≡ length result }
{
    [0; 1048576]
}

fn compared<F: Fn(&[u64]) -> bool>(rt: &impl Print, agrees: &F, text: &[u8]) -> io::Result<Tally>
    requires { F.IsAlwaysCallable agrees.now }
{
    let mut tally = Tally::default();
    let mut line = Line::default();
    for &byte in text {
        if byte == b'\n' {
            tally = tally.with(rt, agrees, &line)?;
            line = Line::default();
        } else {
            line.take(byte);
        }
    }
    Ok(tally)
}

impl Tally {
    // With one line more. Text is passed over, and a line that differs is told at once. No list has 2^64 lines, so no sum wraps.
    fn with<F: Fn(&[u64]) -> bool>(
        mut self,
        rt: &impl Print,
        agrees: &F,
        line: &Line,
    ) -> io::Result<Tally>
        requires { F.IsAlwaysCallable agrees.now }
    {
        self.lines = self.lines.wrapping_add(1);
        if line.is_text() {
            return Ok(self);
        }
        self.answers = self.answers.wrapping_add(1);
        if agrees(line.numbers()) {
            return Ok(self);
        }
        self.differences = self.differences.wrapping_add(1);
        println!(rt; "another answer to line {}", self.lines)?;
        Ok(self)
    }
}

impl fmt::Display for Tally {
    fn fmt<W: fmt::Write>(&self, f: &mut fmt::Formatter<W>) -> fmt::Result {
        let answers = self.answers;
        let differences = self.differences;
        write!(f, "{answers} answers, {differences} differences")
    }
}
