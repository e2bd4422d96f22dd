// Paper 01's ten proof cases as one statement over one table. No code: specs/Table.antt says what each case asks and expects, and the theorem `cases`
// (proofs/Cases.antt) that what the definitions of the crates below give is what is expected. Beside them stands paper 02, §5, which kind of full: what FS and GM are
// answered by the table (specs/Full.antt), whole calls, and what §7 gives for them before they are sent (proofs/Full.antt); and §6, the number of free
// portions after each line of the sample session and on a small station (specs/FreeRoom.antt).
#![tactic(auto)]
