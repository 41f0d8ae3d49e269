// Small files that the promises hold of, and files that show what their conditions are for: theorems alone, in proofs/.
#![tactic(auto)]
