// The wrong versions that document 01 lists, each shown not to meet what is asked ("Slips this trade knows", "How tight the statements
// are").
//
// specs/Versions.antt defines them, each in a few lines; one that a line says, as a fixed status byte, stands in specs/Refuted.antt itself.
// There each is said not to meet the third demand, or not to be what the definitions of the bridge and of packets say. proofs/ show that,
// most by one case that computes.
//
// Worked example: a search that sorts IDs as numbers lists A before B, where search order has B first.

#![tactic(auto)]
