// M-100: what a listing builds when it is run through the drill runner, and that it is the only text that does: theorems alone,
// no code. The statements are in specs/Rebuilt.antt, and are proved in proofs/Promise.antt.
#![tactic(auto)]
