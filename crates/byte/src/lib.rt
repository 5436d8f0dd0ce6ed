// A byte of a slice at any place, and a byte that comes bit by bit.
//
// Worked example: of 87 41 the byte at place 1 is 41, and at place 2 it is 0. A level of 1 that goes into 41 makes it A0.
#![tactic(auto)]

ghost use Rattle.std.specs.Prelude.{◌≡◌, get_or};
ghost use Rattle.byte.specs.Byte.{with_level};

// The byte at a place, 0 behind the end.
pub fn at(bytes: &[u8], place: usize) -> u8
    ensures { result ≡ get_or bytes.now place 0 }
{
    bytes.get(place).copied().unwrap_or(0)
}

// The level goes in at the top and moves the earlier bits down.
pub fn with_level(byte: u8, level: bool) -> u8
    ensures { result ≡ with_level byte level }
{
    if level { byte / 2 + 128 } else { byte / 2 }
}
