// Theorems alone: the three demands over what the loader promises, and the starred edges of document 01. Their words
// are in specs/, and they stand in proofs/.
#![tactic(auto)]
