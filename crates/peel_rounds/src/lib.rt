// How many rounds a peel can have, and a row that reaches it: see specs/ and proofs/. There is no code here.
#![tactic(auto)]
