// The worked cases of LANGUAGE.md 12: no code, one table under one theorem in specs/.
