// Reading packets for the DS28E17 (document 01, "Packets"; document 02, R-1).
//
// Reading takes any bytes apart and gives either the parts or one refusal. A refusal has a number, 16, 17, 18, 19 or 14, and a place, which
// is the offset of the byte at fault or, for 17, the number of bytes wanted. It is the inverse of forming (crate roundtrip).
//
// Worked example: reading 87 41 02 FE 47 gives the code 87h, the address 20h, no data and the count 2. With 46 for the last byte it is
// refused with 14, without that byte with 17, wanting 5, and with 40 for the second byte with 19, at offset 1.
#![tactic(auto)]

ghost use Rattle.std.specs.Prelude.{◌≡◌, ◌<◌, MatchOption};
ghost use Rattle.reading.specs.Reading.{is_unknown, wanted_of, zero_count, low_bit, parts_in, form_of, is_sealed, reading_of, number_of, place_of, reading_number, reading_place, data_in, start_in, place_from};

// What stands for the place where there is none.
// As it is: C takes number and place as one number (include/trelvox.h), and the definitions say 0 where there is none.
pub const NO_PLACE: u16 = 0;

// The code, the address, where the write data starts in the packet and how long it is, and R.
// As it is: numbers for the code and for where the data lies: document 01 wants the parts so (docs/FORMS.md); `data_of` gives the slice.
#[derive(Clone, Copy, PartialEq, Eq)]
pub struct Parts {
    pub code: u8,
    pub address: u8,
    pub start: usize,
    pub len: usize,
    pub count: u8,
}

// What is wrong with a packet: an unknown first byte; its length, with the bytes wanted; a count of zero, with its offset; the low address
// bit; the CRC-16.
#[derive(Clone, Copy, PartialEq, Eq)]
pub enum Refusal {
    Code,
    Length { wanted: u16 },
    Count { place: u16 },
    Bit,
    Crc,
}

impl Refusal {
    // The documents' number.
    pub fn number(self) -> u8
        ensures { result ≡ number_of self }
    {
        match self {
            Refusal::Crc => 14,
            Refusal::Code => 16,
            Refusal::Length { .. } => 17,
            Refusal::Count { .. } => 18,
            Refusal::Bit => 19,
        }
    }

    // The offset of the byte at fault, or of 17 how many bytes were wanted.
    pub fn place(self) -> u16
        ensures { result ≡ place_of self }
    {
        match self {
            Refusal::Crc => NO_PLACE,
            Refusal::Code => 0,
            Refusal::Length { wanted } => wanted,
            Refusal::Count { place } => place,
            Refusal::Bit => 1,
        }
    }
}

// The documents' number of an answer: 0 for the parts.
// As it is: the number that C takes, 0 for the parts (include/trelvox.h); so is `place_in`.
pub fn number_in(reading: Result<Parts, Refusal>) -> u8
    ensures { result ≡ reading_number reading }
{
    match reading {
        Ok(_) => 0,
        Err(refusal) => refusal.number(),
    }
}

// Its place: 0 for the parts.
pub fn place_in(reading: Result<Parts, Refusal>) -> u16
    ensures { result ≡ reading_place reading }
{
    match reading {
        Ok(_) => NO_PLACE,
        Err(refusal) => refusal.place(),
    }
}

// Whether there is a first byte, and it is the code of none of the forms.
#[tactic(auto, unfolding(crate::specs::Reading::is_unknown))]
fn is_unknown(packet: &[u8]) -> bool
    ensures { result ≡ is_unknown packet.now }
{
    let [code, ..] = packet else {
        return false;
    };
    !matches!(*code, packet::WRITE | packet::READ | packet::WRITE_READ)
}

// How many bytes it should have.
#[tactic(auto, unfolding(crate::specs::Reading::wanted_of))]
fn wanted_of(packet: &[u8]) -> u16
    ensures { result ≡ wanted_of packet.now }
{
    let [code, _, count, ..] = packet else {
        return 5; // it ends before its third byte
    };
    match *code {
        packet::WRITE => u16::from(*count) + 5,
        packet::READ => 5,
        _ => u16::from(*count) + 6,
    }
}

// The offset of its first count of zero.
#[tactic(auto, unfolding(crate::specs::Reading::zero_count))]
fn zero_count(packet: &[u8]) -> Option<u16>
    ensures { MatchOption result (zero_count packet.now ≡ 0) (λ k. (k ≡ zero_count packet.now) × (0 < k)) }
{
    let count = u16::from(byte::at(packet, 2));
    if count == 0 {
        return Some(2); // also where R is zero
    }
    let behind = count + 3;
    if byte::at(packet, 0) == packet::WRITE_READ && byte::at(packet, usize::from(behind)) == 0 {
        return Some(behind);
    }
    None
}

fn low_bit(code: u8) -> u8
    ensures { result ≡ low_bit code }
{
    u8::from(code == packet::READ)
}

// The parts of a packet that is of its form.
#[tactic(auto, unfolding(crate::specs::Reading::parts_in))]
fn parts_in(packet: &[u8]) -> Parts
    ensures { result ≡ parts_in packet.now }
{
    let code = byte::at(packet, 0);
    let address = byte::at(packet, 1) / 2;
    let count = byte::at(packet, 2);
    let len = usize::from(count);
    match code {
        packet::WRITE => Parts {
            code,
            address,
            start: 3,
            len,
            count: 0,
        },
        packet::READ => Parts {
            code,
            address,
            start: 0,
            len: 0,
            count,
        },
        _ => Parts {
            code: packet::WRITE_READ,
            address,
            start: 3,
            len,
            count: byte::at(packet, len + 3),
        },
    }
}

// The parts, or what is wrong with the form.
#[tactic(auto, unfolding(crate::specs::Reading::form_of))]
fn form_of(packet: &[u8]) -> Result<Parts, Refusal>
    ensures { result ≡ form_of packet.now }
{
    if is_unknown(packet) {
        return Err(Refusal::Code);
    }
    let wanted = wanted_of(packet);
    if packet.len() != usize::from(wanted) {
        return Err(Refusal::Length { wanted });
    }
    if let Some(place) = zero_count(packet) {
        return Err(Refusal::Count { place });
    }
    if byte::at(packet, 1) % 2 != low_bit(byte::at(packet, 0)) {
        return Err(Refusal::Bit);
    }
    Ok(parts_in(packet))
}

// Whether the last two bytes are the checksum of those before, low byte first.
#[tactic(auto, using(crate::proofs::Seal::no_seal), unfolding(crate::specs::Reading::is_sealed))]
fn is_sealed(packet: &[u8]) -> bool
    ensures { result ≡ is_sealed packet.now }
{
    let Some((body, [low, high])) = packet.split_last_chunk::<2>() else {
        return false;
    };
    u16::from_le_bytes([*low, *high]) == packet::sent_crc(body)
}

// Takes any bytes apart: the parts, what is wrong with the form, or 14.
#[tactic(auto, unfolding(crate::specs::Reading::reading_of, crate::specs::Reading::checked))]
pub fn read(packet: &[u8]) -> Result<Parts, Refusal>
    ensures { result ≡ reading_of packet.now }
{
    let parts = form_of(packet)?;
    if is_sealed(packet) {
        Ok(parts)
    } else {
        Err(Refusal::Crc)
    }
}

// The write data of a packet, as that part of it; empty for 87h and for a refused packet.
#[tactic(auto, using(crate::proofs::Taken::reading_within), unfolding(crate::specs::Reading::data_in, crate::specs::Reading::start_in))]
pub fn data_of(packet: &[u8]) -> &[u8]
    ensures result_value { result.now ≡ data_in (reading_of packet.now) packet.now }
    ensures ref_ptr_value { result.ref_ptr ≡ place_from packet.entry.ref_ptr (start_in (reading_of packet.now)) }
{
    let Ok(parts) = read(packet) else {
        return &packet[..0];
    };
    &packet[parts.start..parts.start + parts.len]
}
