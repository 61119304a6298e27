// Replays the lists of answers that the original Rust gave, each in a file of data/, against the calls that a host links. A new list is a
// line of main; a new call of a list is a row of the table in its module.
#![tactic(auto)]

mod line;
mod list;
mod modular_list;
mod receiver_list;
mod receiver_runs;
mod sched_answers;
mod sched_inputs;
mod sched_list;

use std::io;

fn main(rt: HostRuntime) -> io::Result<()> {
    list::replay(&rt, "modular", "modular.txt", modular_list::agrees)?;
    list::replay(&rt, "sched", "sched.txt", sched_list::agrees)?;
    list::replay(&rt, "receiver", "receiver.txt", receiver_list::agrees)
}
