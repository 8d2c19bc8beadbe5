// Rules for proofs by hand, and no code: `proofs/Walk.antt`.
#![tactic(auto)]
