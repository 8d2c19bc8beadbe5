// No code: the demands of `promises`, joined with the contracts of the calls.
#![tactic(auto)]
