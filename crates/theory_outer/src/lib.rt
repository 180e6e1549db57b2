// The outer face's calls as they are made: no code, what a call was lent, told and left in specs/, and the theorems over it in proofs/.
