// The laws of the algebra, and that they hold of stored rows: theorems on the definitions. There is no code here.

#![tactic(auto)]
