// Theorems alone: what power failures can do to an exchange, and what they cannot. Their words are
// in specs/ (Statement first), and they stand in proofs/ (Demand3 first) and in specs/.
#![tactic(auto)]
