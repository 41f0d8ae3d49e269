// A sheet file as bytes, field by field, and what is read of it: see specs/. There is no code here.
#![tactic(auto)]
