// No functions: proofs/ has laws of what the definitions share.
#![tactic(auto)]
