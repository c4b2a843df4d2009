// The demands have no code: their words stand as definitions in specs/, and that the bench meets them is shown in proofs/.
#![tactic(auto)]
