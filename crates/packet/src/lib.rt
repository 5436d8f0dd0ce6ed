// What a packet for the DS28E17 is (document 01, "Packets").
//
// A packet has one of three forms, each with its code, and ends with the CRC-16 of all bytes before it, which is sent inverted. Forming
// and reading packets are crates of their own.
//
// Worked example: a read of 2 bytes from address 20h is 87 41 02 FE 47. The CRC-16 of 87 41 02 is B801h, and 47FEh is sent.
#![tactic(auto)]

ghost use Rattle.std.specs.Prelude.{◌≡◌};
ghost use Rattle.packet.specs.Request.{inverted_of};

// As it is: the codes are bytes of a packet (document 01), and what reading gives carries numbers only (docs/FORMS.md).
pub const WRITE: u8 = 0x4B;

pub const READ: u8 = 0x87;

pub const WRITE_READ: u8 = 0x2D;

// The CRC-16 as it is sent behind the bytes.
#[tactic(auto, unfolding(crate::specs::Request::inverted_of))]
pub fn sent_crc(bytes: &[u8]) -> u16
    ensures { result ≡ inverted_of bytes.now }
{
    65535 - checksum::crc16(bytes)
}
