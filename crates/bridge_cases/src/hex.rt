// Bytes that are written as pairs of hexadecimal digits: read from a text in which everything else is passed over, and printed.
ghost use Rattle.std.specs.Prelude.{◌<◌, ◌≤◌, IfSome, length};

use std::fmt;

// As it is: `to_digit` takes the small letters too, which are acts here.
fn value(c: u8) -> Option<u8>
    ensures { IfSome result (λ v. v < 16) }
{
    match c {
        b'0'..=b'9' => Some(c - b'0'),
        b'A'..=b'F' => Some(c - b'A' + 10),
        _ => None,
    }
}

// The text's bytes, as many as there is room for, at the start of the room. A last digit with none behind it is the low half of a byte that
// is not given back.
// As it is: what is no digit is passed over, and a last digit alone is stored and not counted, which no method of the library does.
pub(crate) fn decode<'a>(text: &[u8], room: &'a mut [u8]) -> &'a [u8]
    ensures { length result.now ≤ length room.old }
{
    let mut digits = text.iter().filter_map(|c| value(*c));
    let mut whole = 0;
    for byte in room.iter_mut() {
        let Some(high) = digits.next() else {
            break;
        };
        let Some(low) = digits.next() else {
            *byte = high;
            break;
        };
        *byte = high % 16 * 16 + low % 16;
        whole += 1;
    }
    &room[..whole]
}

// Bytes with a space before each.
#[derive(Clone, Copy)]
pub(crate) struct Spaced<'a>(pub(crate) &'a [u8]);

impl fmt::Display for Spaced<'_> {
    fn fmt<W: fmt::Write>(&self, f: &mut fmt::Formatter<W>) -> fmt::Result {
        for byte in self.0 {
            write!(f, " {byte:02X}")?;
        }
        Ok(())
    }
}
