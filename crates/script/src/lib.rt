// The bench script's form (document 01, "The bench script").
//
// A script is bit-packed, most significant bit first: a 16-bit event count, the events, and zero bits up to the byte's end. An event
// begins with two bits of kind; a write has two bits of byte count and its bytes behind that, a fitting the eight bytes of an ID. Bits
// behind the script's end read as 0, so every place can be read, and whether a script is well formed is asked once, of its end.
//
// Worked example: 00 05 1F 04 6D 24 has five events. The first is 00 01 11110000, a write of the byte F0h; the second is 01, a read.
#![tactic(auto)]

ghost use Rattle.std.specs.Prelude.{◌≡◌, ◌+◌, ◌/◌, ◌≤◌, min, length};
ghost use Rattle.script.specs.Script.{piece_at, count_of, event_at, size_of, end_of, is_padded, is_script};
ghost use Rattle.script.specs.Pair.{Pair};

// The most bytes that a script has.
pub const MOST: usize = 4096;

// The first event stands behind the 16 bits of the event count.
pub const FIRST: usize = 16;

// How many bits a byte has.
pub const BYTE: u32 = 8;

// How many bits an event's kind has, the byte count of a write, and an event's head: the kind, and the two bits behind it, which of a write
// are that count.
pub const KIND: usize = 2;

pub const LENGTH: u32 = 2;

pub const HEAD: usize = KIND + LENGTH as usize;

// The most bits that are read at once: wherever they begin, they lie in two bytes.
const WIDEST: u32 = 8;

// ---- the events

// An event by its kind; a write has n bytes, a fitting the eight of an ID.
#[derive(Clone, Copy, PartialEq, Eq)]
pub enum Event {
    Write { n: u8 },
    Read,
    Wait,
    Fit,
}

impl Event {
    // How many bits the event takes.
    #[tactic(auto, unfolding(crate::specs::Script::size_for))]
    pub fn size(self) -> usize
        ensures { result ≡ size_of self }
    {
        match self {
            Event::Write { n } => 4 + 8 * n as usize,
            Event::Read | Event::Wait => 2,
            Event::Fit => 66,
        }
    }
}

// ---- the reader

// Bits that were read, as a number, and the place behind them.
#[derive(Clone, Copy)]
pub struct Piece {
    pub number: u32,
    pub next: usize,
}

// The script's reader: a place in the script, kept with the script's bytes.
#[derive(Clone, Copy)]
pub struct Reader<'a> {
    pub script: &'a [u8],
    pub place: usize,
}

impl<'a> Reader<'a> {
    // A reader at the script's first bit.
    pub fn opened(script: &'a [u8]) -> Reader<'a>
        ensures { (result.script ≡ script.entry) × (result.place ≡ 0) }
    {
        Reader { script, place: 0 }
    }

    // The reader at another place.
    pub fn moved(self, place: usize) -> Reader<'a>
        ensures { (result.script ≡ self.entry.script) × (result.place ≡ place) }
    {
        Reader { place, ..self }
    }

    // The byte that the place is in and the byte behind it, as one number.
    fn pair(self) -> u16
        ensures { Pair self.entry.script.now (self.entry.place / 8) result }
    {
        let script = self.script;
        let i = self.place / 8;
        let next = i + 1;
        // As it is: one test tells of both bytes; by `byte::at` for each it would be no plainer, and a read takes 5 instructions more.
        if next < script.len() {
            return u16::from_be_bytes([script[i], script[next]]);
        }
        u16::from_be_bytes([byte::at(script, i), 0])
    }

    // The n bits from the place on, of more than eight the first eight, and the place behind them.
    pub fn bits(self, n: u32) -> Piece
        ensures { result ≡ piece_at self.entry.script.now self.entry.place (min n 8) }
    {
        let n = n.min(WIDEST);
        let pair = self.pair() as u32;
        let behind = 16 - (self.place % 8) as u32 - n;
        Piece {
            number: (pair >> behind) % (1 << n),
            next: self.place.wrapping_add(n as usize),
        }
    }

    // The event at the place.
    pub fn event(self) -> Event
        ensures { result ≡ event_at self.entry.script.now self.entry.place }
    {
        let head = self.bits(HEAD as u32).number;
        match head / 4 {
            0 => Event::Write {
                n: (head % 4) as u8,
            },
            1 => Event::Read,
            2 => Event::Wait,
            _ => Event::Fit,
        }
    }
}

// What a reader of the script finds at a place.
pub fn bits_from(script: &[u8], place: usize, n: u32) -> Piece
    ensures { result ≡ piece_at script.now place (min n 8) }
{
    Reader::opened(script).moved(place).bits(n)
}

// ---- the script

// The event count, byte by byte.
pub fn count_of(script: &[u8]) -> u16
    ensures { result ≡ count_of script.now }
{
    let high = bits_from(script, 0, BYTE);
    let low = bits_from(script, high.next, BYTE);
    u16::from_be_bytes([high.number as u8, low.number as u8])
}

// The place behind the counted events.
fn end_of(script: &[u8]) -> usize
    ensures { result ≡ end_of script.now (count_of script.now) 16 }
{
    let mut reader = Reader::opened(script).moved(FIRST);
    for _ in 0..count_of(script) {
        reader.place += reader.event().size();
    }
    reader.place
}

fn is_padded(script: &[u8], end: usize) -> bool
    requires { length script.now ≤ 4096 }
    ensures { result ≡ is_padded script.now end }
{
    let whole = 8 * script.len();
    match whole.checked_sub(end) {
        Some(left) if left < 8 => {
            let padding = bits_from(script, end, left as u32);
            padding.number == 0
        }
        _ => false,
    }
}

// The bytes are of the script's form.
pub fn is_script(script: &[u8]) -> bool
    ensures { result ≡ is_script script.now }
{
    (2..=MOST).contains(&script.len()) && is_padded(script, end_of(script))
}
