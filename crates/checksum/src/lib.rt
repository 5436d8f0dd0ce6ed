// The two checksums of the 1-Wire parts (document 01, "Probe identities" and "Packets"; application note 27).
//
// Each function gives the register after every bit of the slice, low bit first, has gone into a shift register that starts at zero:
// CRC-8 with the terms 8, 5, 4, 0 and CRC-16 with the terms 16, 15, 2, 0. The CRC-8 is worked with that register, shift by shift: few
// IDs are asked for, and a table would take flash. The CRC-16 goes a byte at a time by a table of 256 entries. Both are proved equal to
// the register, bit by bit, for every slice.
//
// Worked example: of the nine bytes "123456789" the CRC-8 is A1h and the CRC-16 BB3Dh; of no bytes both are 0.
#![tactic(auto)]

mod table16;

ghost use Rattle.std.specs.Prelude.{◌≡◌};
ghost use Rattle.checksum.specs.Register.{crc8_of, crc16_of, taps16, shifted, entered, table_of};

// The terms 5, 4 and 0 stand that many places below the top bit of the register, which has 8 bits here.
const TAPS8: u16 = 0x8C;

// The terms 15, 2 and 0, in 16 bits.
pub const TAPS16: u16 = 0xA001;

// The low bit falls out. Where it differs from the low bit of `bits`, which goes in, the register is flipped at the taps.
fn shifted<const TAPS: u16>(register: u16, bits: u32) -> u16
    ensures { result ≡ shifted TAPS register bits }
{
    let moved = register >> 1;
    if (register as u32 ^ bits) % 2 == 1 {
        moved ^ TAPS
    } else {
        moved
    }
}

// The register after a byte, bit by bit. A 1 stands above the bits of the byte, and when it alone is left, all eight have gone in. With a
// register of 32 bits the compiler would take two bytes into one turn.
// As it is: nothing counts here. A `for` to eight is unrolled into more than twice the code (DECISIONS, CS-6), and flash counts.
pub fn entered<const TAPS: u16>(register: u16, byte: u8) -> u16
    ensures { result ≡ entered TAPS register byte }
{
    let mut after = register;
    let mut rest = (byte as u32) + 256;
    while rest != 1 {
        after = shifted::<TAPS>(after, rest);
        rest = rest >> 1;
    }
    after
}

pub fn crc8(bytes: &[u8]) -> u8
    ensures { result ≡ crc8_of bytes.now }
{
    let mut register = 0;
    for &byte in bytes {
        register = entered::<TAPS8>(register, byte);
    }
    register as u8
}

// The register of the CRC-16 is carried in 32 bits: narrower sums cost more on the machines that run this.
fn next16(table: &[u16; 256], register: u32, byte: u8) -> u32
    requires { table.now ≡ table_of taps16 }
    ensures { result ≡ entered taps16 register byte }
{
    let k = (register % 256) as u8 ^ byte;
    (table[k as usize] as u32) ^ (register / 256)
}

// A constant array is laid out anew where it is used, so the table is lent once for a whole slice and not once for a byte.
// As it is: the CRC-8 goes on by shifts and this by the table; a fold for both would take the step as a closure, for a loop of a line.
fn through16(table: &[u16; 256], bytes: &[u8]) -> u32
    requires { table.now ≡ table_of taps16 }
    ensures { result ≡ crc16_of bytes.now }
{
    let mut register: u32 = 0;
    for &byte in bytes {
        register = next16(table, register, byte);
    }
    register
}

// The CRC-16 of the slice: the plain register. Whoever sends it inverts it.
pub fn crc16(bytes: &[u8]) -> u16
    ensures { result ≡ crc16_of bytes.now }
{
    through16(&table16::TABLE16, bytes) as u16
}
