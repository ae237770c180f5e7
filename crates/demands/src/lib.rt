#![tactic(auto)]

// The demands over the definitions: no code, only what is proved of the answers.
