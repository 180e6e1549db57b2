// Valid UTF-8: no code, the grammar of RFC 3629 as a relation in specs/ and theorems in proofs/.
