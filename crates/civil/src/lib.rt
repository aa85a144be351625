// The civil calendar as a table, and that its months and years are those of the Gregorian rule: theorems on the
// definitions. There is no code here.

#![tactic(auto)]
