// The starred sheets in one table about the rules (specs/Stars.antt), sheets with strengths in another (specs/WeakEnds.antt), and the listings of
// the sheet of five points and of a row of three with strengths (specs/Listed.antt): no code.
#![tactic(auto)]
