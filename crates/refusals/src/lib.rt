// Which refusal a packet gets (document 02, R-1): laws and no functions.
//
// What is wrong with a packet is said of its bytes, as document 02 words it, and not as the reader tests it. The statement `refusals` ties
// the two: the reader gives a number exactly when its condition and none before it holds, with the place that goes with it.
//
// Worked example: 2D 40 00 00 96 38 is as long as its form wants with an L of zero, and L and R are both zero: 18, at offset 2.
#![tactic(auto)]
