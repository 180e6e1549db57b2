// Rows that nodes name: no code, the words in specs/ and the law in proofs/.
