// Forming and reading are each other's inverse (demand 2), as proved statements about the functions of those two crates.
//
// Each of the first three functions forms a packet and reads it, and gives the parts of the very request; the last reads a packet and
// forms its parts, and gives the very bytes.
//
// Worked example: 87 41 02 FE 47, taken apart and formed again in a buffer of 5 bytes, is 87 41 02 FE 47. 87 41 02 FE is not formed again:
// the answer is 17, with the 5 bytes that it wants.
#![tactic(auto)]

ghost use Rattle.std.specs.Prelude.{◌≡◌};
ghost use Rattle.packet.specs.Request.{write, read, write_read};
ghost use Rattle.forming.specs.Forming.{form_number, formed};
ghost use Rattle.forming.specs.Forming as forming_specs;
ghost use Rattle.reading.specs.Reading.{request_for};
ghost use Rattle.roundtrip.specs.declared.Refusal.TheVariants.{Forming, Reading};
ghost use Rattle.roundtrip.specs.RoundTrip.{number_of, place_of, number_in, place_in, read_back, again_number, again_place, formed_again};

use reading::Parts;

// What was refused: the request, or the packet.
#[derive(Clone, Copy, PartialEq, Eq)]
pub enum Refusal {
    Forming(forming::Refusal),
    Reading(reading::Refusal),
}

impl From<forming::Refusal> for Refusal {
    ghost from_gives = { λ e r. r ≡ Forming e };

    fn from(refusal: forming::Refusal) -> Refusal {
        Refusal::Forming(refusal)
    }
}

impl From<reading::Refusal> for Refusal {
    ghost from_gives = { λ e r. r ≡ Reading e };

    fn from(refusal: reading::Refusal) -> Refusal {
        Refusal::Reading(refusal)
    }
}

impl Refusal {
    // The documents' number.
    pub fn number(self) -> u8
        ensures { result ≡ number_of self }
    {
        match self {
            Refusal::Forming(refusal) => refusal.number(),
            Refusal::Reading(refusal) => refusal.number(),
        }
    }

    // Its place, which is 0 where the number has none.
    pub fn place(self) -> u16
        ensures { result ≡ place_of self }
    {
        match self {
            Refusal::Forming(_) => reading::NO_PLACE,
            Refusal::Reading(refusal) => refusal.place(),
        }
    }
}

// As it is: each is two calls with the arguments of forming; one for the three would take an enum of requests, which forming has not.
#[tactic(auto, using(crate::proofs::Back::backs))]
pub fn read_back_write(address: u32, data: &[u8], buffer: &mut [u8]) -> Result<Parts, Refusal>
    ensures value { result ≡ read_back (write address «data».now) buffer.old }
    ensures buffer_after { buffer.new ≡ formed (write address «data».now) buffer.old }
{
    forming::form_write(address, data, buffer)?;
    Ok(reading::read(&buffer[..data.len() + 5])?)
}

#[tactic(auto, using(crate::proofs::Back::backs))]
pub fn read_back_read(address: u32, count: u32, buffer: &mut [u8]) -> Result<Parts, Refusal>
    ensures value { result ≡ read_back (read address count) buffer.old }
    ensures buffer_after { buffer.new ≡ formed (read address count) buffer.old }
{
    forming::form_read(address, count, buffer)?;
    Ok(reading::read(&buffer[..5])?)
}

#[tactic(auto, using(crate::proofs::Back::backs))]
pub fn read_back_write_read(
    address: u32,
    data: &[u8],
    count: u32,
    buffer: &mut [u8],
) -> Result<Parts, Refusal>
    ensures value { result ≡ read_back (write_read address «data».now count) buffer.old }
    ensures buffer_after { buffer.new ≡ formed (write_read address «data».now count) buffer.old }
{
    forming::form_write_read(address, data, count, buffer)?;
    Ok(reading::read(&buffer[..data.len() + 6])?)
}

// Forms the request of the parts and their data.
fn form(parts: Parts, data: &[u8], buffer: &mut [u8]) -> Result<(), forming::Refusal>
    ensures value { forming_specs.number_in result ≡ form_number (request_for parts «data».now) buffer.old }
    ensures buffer_after { buffer.new ≡ formed (request_for parts «data».now) buffer.old }
{
    let address = u32::from(parts.address);
    let count = u32::from(parts.count);
    match parts.code {
        packet::WRITE => forming::form_write(address, data, buffer),
        packet::READ => forming::form_read(address, count, buffer),
        _ => forming::form_write_read(address, data, count, buffer),
    }
}

// Forms the parts of a packet again; a packet that is not accepted hands its refusal on.
pub fn form_again(packet: &[u8], buffer: &mut [u8]) -> Result<(), Refusal>
    ensures number_value { number_in result ≡ again_number packet.now buffer.old }
    ensures place_value { place_in result ≡ again_place packet.now }
    ensures buffer_after { buffer.new ≡ formed_again packet.now buffer.old }
{
    let parts = reading::read(packet)?;
    form(parts, reading::data_of(packet), buffer)?;
    Ok(())
}
