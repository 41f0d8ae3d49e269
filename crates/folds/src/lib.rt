// The words that the definitions of the other crates share, with their laws: see specs/. There is no code here.
#![tactic(auto)]
