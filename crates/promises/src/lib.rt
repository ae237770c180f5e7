#![tactic(auto)]

// The front page: no code, only the promises, in proofs/Promises.antt.
