// The conversion in steps: definitions, and theorems on them. There is no code here.

#![tactic(auto)]
