// The scan rules as a machine that reads one byte at a time: no code, definitions in specs/ and theorems in proofs/.
