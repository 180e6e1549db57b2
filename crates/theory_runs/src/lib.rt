// Declarations that stay put: no code, where a declaration's rows and nodes stand in specs/ and the theorems in proofs/.
