// The laws about patterns (proofs/): their text, their language, the states that stand for sets of letters, the numbering, and the bytes of an automaton.
//
// There is no code here. Assumes nothing.

#![tactic(auto)]
