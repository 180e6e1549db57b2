#![tactic(auto)]

// Figures: no code, theorems in proofs/.
