#![tactic(auto)]

// Two texts read as one program: no code, the words of the theorem in specs/ and its proof in proofs/.
