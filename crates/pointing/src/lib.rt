// Paper 02, §2, "A refusal should point": what the place of answer 6 says of a line. A line that ends too soon points to its LF, and no other does: some
// well-formed line starts with it exactly when the place is its LF (proofs/Soon.antt). No place of a line read is past its LF (proofs/Inside.antt). And what was
// taken before refusals pointed is taken as before (proofs/Base.antt). No code: reading is proved of the code in the crates below.
#![tactic(auto)]
