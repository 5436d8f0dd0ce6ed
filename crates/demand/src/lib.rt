// The third demand of the request, proved of the library's search, and what a withdrawal does to a line that calls reach.
//
// specs/Demand.antt states the demand of any search: from any state that calls reach, it lists the first IDs in search order, says truly
// whether the list is complete, and leaves the last probe listed to be resumed; more passes only lengthen the list, and one probe more, or
// one less, leaves the others in their order. specs/Contract.antt says which search is ours: every outcome that the contract of
// search::search allows. specs/Swaps.antt states what document 02, R-3, says of withdrawing, and specs/Sound.antt what holds of the line in
// such a state. proofs/ show all of it, from the laws of the crate searching, which hold of any line, and from what calls can do to one.
//
// Worked example: with A, B and C of document 01 fitted, `order` is C, B, A; two passes list C and B, and then Resume selects B alone.

#![tactic(auto)]
