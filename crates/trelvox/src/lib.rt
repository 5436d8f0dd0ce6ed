// What the firmware links: forming, reading and the two checksums under C names (document 01, "Packets"; document 02, R-1).
//
// Each function is the library's own, with the same arguments in the same order; a slice is a pointer and then a length. Reading returns
// number and place as one number and puts the parts into five that are lent. include/trelvox.h declares them.
//
// Worked example: trelvox_form_read(0x20, 2, buffer, 5) returns 0 and leaves 87 41 02 FE 47 in the buffer. trelvox_read(buffer, 5, parts)
// then returns 0 and leaves 87h, 20h, 0, 0, 2 in the parts; trelvox_read(buffer, 4, parts) returns 0511h, which is 17, with 5 bytes wanted.
#![tactic(auto)]

ghost use Rattle.std.specs.Prelude.{◌≡◌};
ghost use Rattle.checksum.specs.Register.{crc8_of, crc16_of};
ghost use Rattle.packet.specs.Request.{write, read, write_read};
ghost use Rattle.forming.specs.Forming.{number_in, form_number, formed};
ghost use Rattle.reading.specs.Reading.{reading_of};
ghost use Rattle.trelvox.specs.Answer.{answer_of, numbers_of};

#[unsafe(no_mangle)]
pub extern "C" fn trelvox_crc8(bytes: &[u8]) -> u8
    ensures { result ≡ crc8_of bytes.now }
{
    checksum::crc8(bytes)
}

#[unsafe(no_mangle)]
pub extern "C" fn trelvox_crc16(bytes: &[u8]) -> u16
    ensures { result ≡ crc16_of bytes.now }
{
    checksum::crc16(bytes)
}

// The number of what forming gives: 0 where it does not refuse.
// As it is: C takes numbers, and the forms have three names there (include/trelvox.h); reading's `number_in` is of other refusals.
fn number_in(formed: Result<(), forming::Refusal>) -> u8
    ensures { result ≡ number_in formed }
{
    match formed {
        Ok(()) => 0,
        Err(refusal) => refusal.number(),
    }
}

#[unsafe(no_mangle)]
pub extern "C" fn trelvox_form_write(address: u32, data: &[u8], buffer: &mut [u8]) -> u8
    ensures value { result ≡ form_number (write address «data».now) buffer.old }
    ensures buffer_after { buffer.new ≡ formed (write address «data».now) buffer.old }
{
    number_in(forming::form_write(address, data, buffer))
}

#[unsafe(no_mangle)]
pub extern "C" fn trelvox_form_read(address: u32, count: u32, buffer: &mut [u8]) -> u8
    ensures value { result ≡ form_number (read address count) buffer.old }
    ensures buffer_after { buffer.new ≡ formed (read address count) buffer.old }
{
    number_in(forming::form_read(address, count, buffer))
}

#[unsafe(no_mangle)]
pub extern "C" fn trelvox_form_write_read(
    address: u32,
    data: &[u8],
    count: u32,
    buffer: &mut [u8],
) -> u8
    ensures value { result ≡ form_number (write_read address «data».now count) buffer.old }
    ensures buffer_after { buffer.new ≡ formed (write_read address «data».now count) buffer.old }
{
    number_in(forming::form_write_read(address, data, count, buffer))
}

// The parts are the code, the address, where the data starts, how long it is, and R; a refused packet leaves them as they were.
// As it is: C takes number and place as one number, and lends five numbers for the parts (include/trelvox.h).
#[unsafe(no_mangle)]
pub extern "C" fn trelvox_read(packet: &[u8], parts: &mut [usize; 5]) -> u32
    ensures value { result ≡ answer_of (reading_of packet.now) }
    ensures parts_after { parts.new ≡ numbers_of (reading_of packet.now) parts.old }
{
    let reading = reading::read(packet);
    let Ok(read) = reading else {
        return u32::from(reading::number_in(reading)) + u32::from(reading::place_in(reading)) * 256;
    };
    *parts = [
        usize::from(read.code),
        usize::from(read.address),
        read.start,
        read.len,
        usize::from(read.count),
    ];
    0
}
