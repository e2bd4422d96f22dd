// The store's part of sound (paper 01): its clauses as named Bools in specs/, the shelf (the directory with its contents), and the theorems that the
// moves keep sound, change one place of the shelf and leave all other contents as they are. No code: `store_check` and `chain_check` decide the Bools, and
// `starting`, `growing`, `erasing` and `clearing` move.
#![tactic(auto)]
