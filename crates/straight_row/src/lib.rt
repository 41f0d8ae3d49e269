// A row of points at equal distances on a straight line: no filter that goes by the points themselves marks any of it. See specs/ and proofs/.
// There is no code here.
#![tactic(auto)]
