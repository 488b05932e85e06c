// The runs that the paper marks (p), worked out by its definitions; it has no code.
#![tactic(auto)]
