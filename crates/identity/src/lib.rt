// The identities of probes (document 01, "Probe identities").
//
// An ID is 8 bytes: family code, six serial bytes, CRC-8. Bit 0 is the low bit of the family code and bit 63 the high bit of the CRC, so
// an ID is also one number of 64 bits, with the family code in its low byte.
//
// Worked example: 02 1C B8 01 00 00 00 A2 has the family 02h and the right CRC, and is the number A200_0000_01B8_1C02h.
#![tactic(auto)]

ghost use Rattle.std.specs.Prelude.{◌≡◌, IfOk};
ghost use Rattle.identity.specs.Identity.{number_of, bit_of, refusal_of, number_returned, number_in};

// What is wrong with an ID by itself.
#[derive(Clone, Copy, PartialEq, Eq)]
pub enum Refusal {
    // The last byte is not the CRC-8 of the seven before it.
    Crc,
    // The family code is 00h.
    Family,
}

impl Refusal {
    // Its number in the table of document 01 ("Numbers returned").
    pub fn number(self) -> u8
        ensures { result ≡ number_returned self }
    {
        match self {
            Refusal::Crc => 2,
            Refusal::Family => 3,
        }
    }
}

// The ID as one number, with the family code in the low byte.
#[tactic(auto, using(crate::proofs::Numbers::number_of_le))]
pub fn number(bytes: &[u8; 8]) -> u64
    ensures { result ≡ number_of bytes.now }
{
    u64::from_le_bytes(*bytes)
}

// Bit k of an ID; a bit past the last is 0.
#[tactic(auto, using(crate::proofs::Bits::past_64), unfolding(crate::specs::Identity::bit_of))]
pub fn bit(id: u64, k: u8) -> bool
    ensures { result ≡ bit_of id k }
{
    k < 64 && (id >> k) % 2 == 1
}

// The number of an ID with which nothing is wrong: its CRC is checked first, then its family.
#[tactic(auto, unfolding(crate::specs::Identity::refusal_of, crate::specs::Identity::crc_right, crate::specs::Identity::family_of))]
pub fn admitted(bytes: &[u8; 8]) -> Result<u64, Refusal>
    ensures number_value { number_in result ≡ refusal_of bytes.now }
    ensures id_value { IfOk result (λ id. id ≡ number_of bytes.now) }
{
    // A part is taken of a slice, not of an array that is lent.
    let whole: &[u8] = bytes;
    if checksum::crc8(&whole[..7]) != bytes[7] {
        return Err(Refusal::Crc);
    }
    if bytes[0] == 0 {
        return Err(Refusal::Family);
    }
    Ok(number(bytes))
}
