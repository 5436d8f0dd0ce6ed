// The configuration byte and the strong pull-up (document 02, R-12): laws and no functions.
//
// specs/Pullup.antt says which bytes are accepted, over the three bits APU, SPU and 1WS, and what the pull-up comes to in every state that
// calls reach. proofs/ show it of the bridge's definitions.
//
// Worked example: B4h is SPU alone, for its nibbles are 0100 and the complement, 1011. A Write Byte after it leaves the pull-up on, and the
// next one finds SPU cleared.

#![tactic(auto)]
