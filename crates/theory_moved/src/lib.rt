// Nodes whose rows are moved: no code, what moving is in specs/ and the law in proofs/.
