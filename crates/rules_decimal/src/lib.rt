// How numbers are written for people: definitions alone.
