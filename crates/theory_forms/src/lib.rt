// Theorems over the definitions of stored tables: no code, words in specs/ and theorems in proofs/.
