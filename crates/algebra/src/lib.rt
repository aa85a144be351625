// The computed conversion means the algebra: theorems on the definitions. There is no code here.

#![tactic(auto)]
