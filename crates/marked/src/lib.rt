// Document 01's twelve marked cases: theorems alone, no code. The table is in specs/Marked.antt, and what is proved of it in
// proofs/Cases.antt (`marked`).
#![tactic(auto)]
