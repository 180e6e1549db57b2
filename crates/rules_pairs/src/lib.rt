// Two edits of one text: no code, definitions and worked cases in specs/.
