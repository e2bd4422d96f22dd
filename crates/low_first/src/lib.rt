// Numbers in bytes, low byte first.
//
// Paper 01 writes an entry's first portion and size "low byte first", and so are the session's image and the numbers of a file written here. `number_at` reads the number of w
// bytes at a place, `bytes_of` writes a number's w bytes (specs/Low.antt); the laws put a number of two or four bytes together. Definitions and laws alone.
#![tactic(auto)]
