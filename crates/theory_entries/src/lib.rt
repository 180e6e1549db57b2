// The entries of an index by the nodes: no code, what they are in specs/ and the law in proofs/.
