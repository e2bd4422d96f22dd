// Every call keeps sound. From sound lent memory of the right lengths each command and each label leads to such memory again, whatever font and input
// come with it (proofs/Calls.antt, proofs/Labels.antt), and an opening and a repair give such memory (proofs/Opening.antt, proofs/Repairing.antt). So from there on,
// through any calls on the sessions that were answered, no call answers 3 (proofs/Always.antt). What each kind of command does to the parts of sound is one theorem a
// command, `keeps-..`: Numbers, Values, Starting, Recording, Erasing. No code: the definitions are those of the station, and specs/Calls.antt says what
// calls one after another are.
#![tactic(auto)]
