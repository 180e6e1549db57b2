// A site prelude: no code, what is claimed of two texts in specs/ and theorems in proofs/.
