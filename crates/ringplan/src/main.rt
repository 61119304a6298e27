// Answers each line of standard input with the scheduler's plan.
#![tactic(auto)]

use anyhow::Result;
use planline::Question;

fn main(rt: HostRuntime) -> Result<()> {
    console::answer_all(&rt, Question::Ring)
}
