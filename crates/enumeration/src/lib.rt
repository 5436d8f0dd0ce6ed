// The order in which passes of a search find IDs, apart from bridge and line (document 01, "Probe identities" and "The search").
//
// specs/Order.antt says what it is for a list to be the IDs in search order. proofs/ show that there is exactly one such list, that one ID
// more leaves the others as they stood, and that passes which follow the rule of directions meet that list ID by ID, in a binary tree of
// which only this is known: that something is at a node exactly if something is at one of its two children.
//
// Worked example: of the numbers 1, 2 and 6 the search order is 2, 6, 1: 1 has bit 0, and 2 and 6 part at bit 2.

#![tactic(auto)]
