// RSRE Report 90009 has no code here: it stands as definitions in specs/, and what they come to is shown in proofs/.
#![tactic(auto)]
