// No code. proofs/ holds what follows from the equations that the five calls promise: of one call, of whole commands, of every sequence;
// specs/ holds what it is said in.
#![tactic(auto)]
