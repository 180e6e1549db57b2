// Laws that several crates share: no code, theorems in proofs/.
