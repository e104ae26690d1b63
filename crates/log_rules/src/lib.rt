// A night's log: its records, the line that is printed of each, and working through it piece by piece. Definitions and
// laws. No function.
#![tactic(auto)]
