// Numbers in decimal: no code, the laws of the definitions of `rules_decimal` in proofs/.
