// The flat form of every value that a host hands in or is answered: numbers, and structs of them. A function that is named after a value reads a
// host's numbers, any bits; one that begins `flat_` writes them.
// Functions and no `From`: each has the name of the definition in specs/ that its clause and the theorems cite.
#![tactic(auto)]

pub mod block;
pub mod call;
pub mod copy;
pub mod counter;
pub mod diff;
pub mod failure;
pub mod list;
pub mod modulus;
pub mod operation;
pub mod outcome;
pub mod plan;
pub mod reading_end;
pub mod receiver_record;
pub mod refusal;
pub mod scheduler;
pub mod state;
pub mod structs;
pub mod writing_end;
