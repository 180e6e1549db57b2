// The layout call in words: no code, its answers in specs/, and the theorems over them in proofs/.
