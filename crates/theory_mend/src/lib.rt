// Theorems over the definitions of mending: no code, words in specs/ and theorems in proofs/.
