// The theorems on the grammar, the tree and the parser as a function: no code, theorems in proofs/.
