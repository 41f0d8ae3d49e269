// Small halves that the promises about joins hold of, and halves that show what their conditions are for: theorems alone, in proofs/.
#![tactic(auto)]
