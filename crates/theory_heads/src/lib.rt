// Names by the rows of two tables: no code, the law in proofs/.
