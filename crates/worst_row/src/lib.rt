// The sheet that takes longest is accepted, and is a straight row of which all points but the last are weak: see proofs/. There is no code here.
#![tactic(auto)]
