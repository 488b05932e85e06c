// The user's three demands, over what the public calls state: specs/ says them, proofs/ proves them by citing the paper's. There is no code here.
#![tactic(auto)]
