// No functions: proofs/ walks the grammar of agreement files once, and says what is known of all that is read.
#![tactic(auto)]
