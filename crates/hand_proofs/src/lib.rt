// Lemmas on calls, parameters and lists that are written, for the proofs of functions. No code.

#![tactic(auto)]
