// [7.12] [7.13] The promise over a link: what every list on every tablet says, at every moment, whatever the link loses, repeats, delays
// or reorders. There is no code here: specs/ has the world and the promise, over tables and lists as values and any lawful lines, and
// proofs/AnyLines.antt the theorems. Crate journey_lent has them of the public calls, in lent memory.
#![tactic(auto)]
