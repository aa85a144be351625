// The laws of rows: theorems on what a row means. There is no code here.

#![tactic(auto)]
