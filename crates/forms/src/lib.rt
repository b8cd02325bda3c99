// No functions: proofs/ shows that the expanded form and the unexpanded one agree.
#![tactic(auto)]
