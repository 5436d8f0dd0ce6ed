// The IDs of document 01, "Tried on paper", and two pairs that are nearly alike.
// As it is: the cases of the bridge have A, B and C too, but programs share no code, and a library of three constants would be no plainer.
pub const A: [u8; 8] = [0x19, 0x01, 0, 0, 0, 0, 0, 0x00];

pub const B: [u8; 8] = [0x19, 0x02, 0, 0, 0, 0, 0, 0x59];

pub const C: [u8; 8] = [0x02, 0x1C, 0xB8, 0x01, 0, 0, 0, 0xA2];

pub const EVEN: [u8; 8] = [0x18, 0x01, 0, 0, 0, 0, 0, 0x3D];

pub const ODD: [u8; 8] = A;

pub const LOW: [u8; 8] = A;

pub const HIGH: [u8; 8] = [0x19, 0x01, 0, 0, 0, 0, 0x80, 0x8C];

// One of many IDs that have little in common.
// As it is: see `of_serial` of speed: programs share no code.
pub(crate) fn numbered(n: u8) -> [u8; 8] {
    let mut id = [
        n % 64 + 1,
        n.wrapping_mul(37),
        n.wrapping_mul(11),
        n,
        0,
        n.wrapping_mul(5),
        n.wrapping_mul(101),
        0,
    ];
    let crc = checksum::crc8(&id[..7]);
    id[7] = crc;
    id
}
