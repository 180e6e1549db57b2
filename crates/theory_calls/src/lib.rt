// Demand 2, of the parse call: no code, definitions in specs/ and the theorem in proofs/.
