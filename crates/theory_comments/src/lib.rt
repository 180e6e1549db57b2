// The comments of a text: no code, their definition over the text alone in specs/ and theorems in proofs/.
