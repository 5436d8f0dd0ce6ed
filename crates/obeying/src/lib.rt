// What the library forms is what the chip obeys (document 02, R-7): laws and no functions.
//
// specs/Obeying.antt says what a request means for the sensor and what the chip answers, over the levels of the line: for a packet as the
// library forms it, with the chip's own address; with a wrong CRC; with another address byte; and with a byte that makes the chip deaf.
// proofs/ show it of the chip's definitions.
//
// Worked example: the chip of address 20h whose register 0 holds 5Ah, and whose pointer is 0, is just selected. The 40 levels of 87 41 01
// and their CRC leave its pointer at 1. In the 18 slots that follow it sends 1, 0, the bits of 00h and those of 5Ah, whatever the levels
// are, and then it is deaf.

#![tactic(auto)]
