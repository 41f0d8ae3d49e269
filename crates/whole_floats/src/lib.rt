// Whole numbers as f32, and the signs of f32s: see specs/ and proofs/. There is no code here.
#![tactic(auto)]
