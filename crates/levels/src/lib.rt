// Why the search gives no number 10 (document 02, R-6): in no pass that began with presence does a triplet end with both levels 1.
//
// specs/Levels.antt says which passes a search takes, what the bridge shows after each of their triplets, and that SBR and TSB are never
// both 1 there. proofs/ show it of every state that calls reach and of every allowance: probes come and go only between calls, so the path
// that a pass follows always has a probe on it.
//
// Worked example: with A, B and C of document 01 fitted, the first triplet of each pass shows 0,0, and every other one has at least one 0.
// After Skip ROM, which is no search, a triplet shows 1,1.

#![tactic(auto)]
