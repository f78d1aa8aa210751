// One string's row (specs/), and its laws (proofs/): its allowed lengths in word 0, and the symbols allowed at place i in word i.
//
// There is no code here. Assumes nothing.

#![tactic(auto)]
