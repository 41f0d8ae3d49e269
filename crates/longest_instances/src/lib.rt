// Small files that the promise on the number of rounds holds of, and files that show what its conditions are for: theorems alone, in proofs/.
#![tactic(auto)]
