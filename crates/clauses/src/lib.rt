// The theory of clauses: which covers which. It has definitions and proofs, and no code.
#![tactic(auto)]
