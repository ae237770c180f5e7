#![tactic(auto)]

// The bench cards and other worked questions: no code, only answers by computation.
