// No code: theorems over the definitions of `rules`, which are the contracts of every public call.
#![tactic(auto)]
