// [7.12] [7.13] [7.14] The promise over a link, of the public calls in lent memory: worlds whose table is a store, whose lists are held in
// rooms, and whose steps are the calls' own definitions. There is no code here: specs/ has the worlds, how they are seen as worlds of
// journey, and what is promised of them; proofs/Demand.antt names the promises, proofs/Contracts.antt ties the steps to the contracts.
#![tactic(auto)]
