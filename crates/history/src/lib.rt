// Demand 3: theorems alone, no code. What a run's requests are and what is promised of them is in specs/ (History.antt,
// Statements.antt); the proofs, for every run, are in proofs/ (Promise.antt).
#![tactic(auto)]
