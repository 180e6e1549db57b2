// Layouts: no code, what is claimed of them in specs/ and theorems in proofs/.
