// No code: what is promised stands in specs/, and why it holds in proofs/.
#![tactic(auto)]
