// Entries put in another order: no code, what an exchange is in specs/ and the laws in proofs/.
