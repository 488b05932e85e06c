// The paper as definitions, in specs/, and what follows from them, in proofs/. There is no code here: every crate above cites this one.
#![tactic(auto)]
