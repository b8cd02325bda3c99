// No functions: proofs/ has laws of what every run does.
#![tactic(auto)]
