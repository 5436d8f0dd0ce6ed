// What the commands of a search do to a line whose probes search (document 01, "The search"): laws of the definitions of probe, line,
// bridge and passes, which say where each pass ends and what the passes come to.
//
// proofs/ give the line in the middle of a pass in closed form, show by it that a pass ends where the enumeration says, and that a search
// lists what the enumeration lists. They hold of any line with a table of probes: neither distinct IDs nor a reached state is asked for.
//
// Worked example: with A, B and C of document 01 fitted, the passes end at C, B and A, and a search that is allowed 4 does what one that
// is allowed 3 does.

#![tactic(auto)]
