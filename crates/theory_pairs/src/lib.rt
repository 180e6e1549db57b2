// Two edits of one text end alike in either order, and in a row as the one that covers them: no code, theorems in proofs/.
