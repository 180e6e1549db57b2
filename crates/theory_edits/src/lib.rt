// The edit gives exactly the rows and refusal of a fresh scan: no code, definitions in specs/ and theorems in proofs/.
