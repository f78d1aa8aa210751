// What lets a search do less (specs/), and why it may (proofs/): steps that need not run, nodes that are left at once, a table that is kept.
//
// There is no code here. Assumes nothing.

#![tactic(auto)]
