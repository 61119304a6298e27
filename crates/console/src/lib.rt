// A program over planline: the lines of the input are asked, and the answers are the output. Bytes are only moved here: what a line is, and
// what its answer is, planline says.
#![tactic(auto)]

mod answering;

ghost use Rattle.std.specs.Prelude.{OnOk};
ghost use Rattle.std.specs.Io.KnownBytes.{Appends};
ghost use Rattle.console.specs.Owed.{AnswersAll, header_of};

use answering::{Answering, print};
use anyhow::Result;
use planline::Question;
use std::io;
use std::io::{Read, Write};

// The lines of standard input, and standard output.
pub fn answer_all(rt: &(impl Input + Print), question: Question) -> Result<()> {
    answer_stream(&mut rt.reader(), &mut io::writer(rt), question)
}

// The question's header, and then the answer to each line, in whatever pieces the input comes. Reader and writer are two parameters, here
// and in answering.rt, since the clauses name what each is left with.
pub fn answer_stream<R: Read, W: Write>(
    input: &mut R,
    output: &mut W,
    question: Question,
) -> Result<()>
    ensures { OnOk result (AnswersAll question (R.remaining input.old) (W.contents output.old) (W.contents output.new)) }
{
    print_header(output, question)?;
    Answering::new(question).answer_lines(input, output)
}

// A match and no method: `Question` is planline's, and a header is not.
fn print_header<W: Write>(output: &mut W, question: Question) -> Result<()>
    ensures { OnOk result (Appends (W.contents output.old) (W.contents output.new) (header_of question)) }
{
    match question {
        Question::Ring => print(output, b"ring plan\n", 10),
        Question::Strips => print(output, b"strip plan\n", 11),
    }
}
