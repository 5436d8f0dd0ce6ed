// Forming packets for the DS28E17 (document 01, "Packets").
//
// Forming writes one of the three forms into a lent buffer, or refuses: for its limits (number 11), then for a buffer that is too short
// (12). Bytes behind the packet stay, and a refused call changes no byte.
//
// Worked example: forming a read of 2 bytes from address 20h gives 87 41 02 FE 47. From address 80h it is refused with 11.
#![tactic(auto)]

ghost use Rattle.std.specs.Prelude.{◌≡◌, true, false, [], ◌∷◌, ◌+◌, ◌*◌, ◌<◌, ◌≤◌, length, take, MatchResult};
ghost use Rattle.packet.specs.Request.{write, read, write_read, seal_of};
ghost use Rattle.forming.specs.Buffer.{over, placed};
ghost use Rattle.forming.specs.declared.Refusal.TheVariants.{Limits, Buffer};
ghost use Rattle.forming.specs.Forming.{good_address, good_count, number_of, number_in, form_number, formed};

// Why a request is not formed: its address or a count is outside its limits, or the buffer is too short.
#[derive(Clone, Copy, PartialEq, Eq)]
pub enum Refusal {
    Limits,
    Buffer,
}

impl Refusal {
    // The number of document 01, "Numbers returned".
    pub fn number(self) -> u8
        ensures { result ≡ number_of self }
    {
        match self {
            Refusal::Limits => 11,
            Refusal::Buffer => 12,
        }
    }
}

// The address as it stands in a packet, above a low bit of 0.
fn address_byte(address: u32) -> Result<u8, Refusal>
    ensures { MatchResult result (λ byte. (good_address address ≡ true) × (byte ≡ address * 2)) (λ why. (good_address address ≡ false) × (why ≡ Limits)) }
{
    if address <= 127 {
        Ok((address * 2) as u8)
    } else {
        Err(Refusal::Limits)
    }
}

// L or R as it stands in a packet.
fn count_byte(count: usize) -> Result<u8, Refusal>
    ensures { MatchResult result (λ byte. (good_count count ≡ true) × (byte ≡ count)) (λ why. (good_count count ≡ false) × (why ≡ Limits)) }
{
    if 1 <= count && count <= 255 {
        Ok(count as u8)
    } else {
        Err(Refusal::Limits)
    }
}

fn roomy(buffer: &[u8], wanted: usize) -> Result<(), Refusal>
    ensures { MatchResult result (λ _. wanted ≤ length buffer.now) (λ why. (length buffer.now < wanted) × (why ≡ Buffer)) }
{
    if wanted <= buffer.len() {
        Ok(())
    } else {
        Err(Refusal::Buffer)
    }
}

// As it is: three stores say it; a copy from an array of three would be no plainer, and would call memmove.
fn put_head(buffer: &mut [u8], code: u8, address: u8, count: u8)
    requires { 3 ≤ length buffer.old }
    ensures { buffer.new ≡ over (code ∷ address ∷ count ∷ []) buffer.old }
{
    buffer[0] = code;
    buffer[1] = address;
    buffer[2] = count;
}

fn put_data(buffer: &mut [u8], place: usize, data: &[u8])
    requires { place + length «data».now ≤ length buffer.old }
    ensures { buffer.new ≡ placed place «data».now buffer.old }
{
    // As it is: the library's copy calls memmove, and form_write then took 3,336 bytes of stack, not 1,024 (tests/c/stack.c).
    for (i, &byte) in data.iter().enumerate() {
        buffer[place + i] = byte;
    }
}

// The checksum of the bytes before `place`, inverted, low byte first.
// As it is: two stores, as in `put_head`.
fn put_seal(buffer: &mut [u8], place: usize)
    requires { place + 2 ≤ length buffer.old }
    ensures { buffer.new ≡ placed place (seal_of (take place buffer.old)) buffer.old }
{
    let [low, high] = packet::sent_crc(&buffer[..place]).to_le_bytes();
    buffer[place] = low;
    buffer[place + 1] = high;
}

// 4Bh: writes the data to the address.
// As it is: C calls the three and hands their arguments over one by one (include/trelvox.h); what they share stands above.
pub fn form_write(address: u32, data: &[u8], buffer: &mut [u8]) -> Result<(), Refusal>
    ensures value { number_in result ≡ form_number (write address «data».now) buffer.old }
    ensures buffer_after { buffer.new ≡ formed (write address «data».now) buffer.old }
{
    let to = address_byte(address)?;
    let len = count_byte(data.len())?;
    roomy(buffer, data.len() + 5)?;
    put_head(buffer, packet::WRITE, to, len);
    put_data(buffer, 3, data);
    put_seal(buffer, data.len() + 3);
    Ok(())
}

// 87h: reads so many bytes from the address.
pub fn form_read(address: u32, count: u32, buffer: &mut [u8]) -> Result<(), Refusal>
    ensures value { number_in result ≡ form_number (read address count) buffer.old }
    ensures buffer_after { buffer.new ≡ formed (read address count) buffer.old }
{
    let from = address_byte(address)? + 1;
    let count = count_byte(count as usize)?;
    roomy(buffer, 5)?;
    put_head(buffer, packet::READ, from, count);
    put_seal(buffer, 3);
    Ok(())
}

// 2Dh: writes the data to the address, then reads so many bytes from it.
pub fn form_write_read(
    address: u32,
    data: &[u8],
    count: u32,
    buffer: &mut [u8],
) -> Result<(), Refusal>
    ensures value { number_in result ≡ form_number (write_read address «data».now count) buffer.old }
    ensures buffer_after { buffer.new ≡ formed (write_read address «data».now count) buffer.old }
{
    let to = address_byte(address)?;
    let len = count_byte(data.len())?;
    let count = count_byte(count as usize)?;
    roomy(buffer, data.len() + 6)?;
    put_head(buffer, packet::WRITE_READ, to, len);
    put_data(buffer, 3, data);
    buffer[data.len() + 3] = count;
    put_seal(buffer, data.len() + 4);
    Ok(())
}
