// Runs worked out over the tables of words, by computation: no code. Six are written out by hand (specs/Worked.antt), fourteen
// are the second program's, with what its ledger says of them (proofs/Generated.antt).
#![tactic(auto)]
