// What the bytes between two lines may touch: a theorem of two calls, and no code.
