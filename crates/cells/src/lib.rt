// Lists cut into cells of one width (portions of 256 bytes, entries of 16, fields of 34), counts over lists and numbers, and the lowest number
// that passes a test. Paper 01 lends all its memory as such rows. Definitions in specs/ and their laws in proofs/, for the crates above; no code.
#![tactic(auto)]
