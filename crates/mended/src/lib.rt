// What the repair of a store promises (paper 02, §11), as theorems over the definitions of `verdicts` and `mending`. proofs/Theorems.antt states them, each
// under the section's sentence: which reason is given and when, that an entry is kept exactly when it meets every rule of sound by itself and shares nothing
// with an earlier kept one, that what is left is sound and what is kept stays byte for byte, that every other portion is free, and that a sound store, and so
// one that was repaired, stays as it is. specs/Fair.antt says "by itself" and "shares nothing" as plain facts, one a rule. The other files of proofs/ follow
// the definitions: the walk along the links (Chains), one verdict (Reasons, Tests), the entries one after another (Judging, Kept), what is left (Fills, Cuts,
// Left), a sound store (Unchanged). No code: the crates `verdicts`, `mending` and `repair` compute what is defined.
#![tactic(auto)]
