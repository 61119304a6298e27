// The paper's numbers, proved together as one table from the definitions that the contracts cite: specs/Table.antt, and
// those of the strips: specs/Strips.antt. There is no code.
#![tactic(auto)]
