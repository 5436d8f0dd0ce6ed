// Searches, each with the line that it prints.
use crate::lines;
use bridge::Bridge;
use probe::Condition;
use search::{Refusal, Searched};
use std::{fmt, io};

// A list as it is before a search.
const BLANK: [u8; 512] = [0xEE; 512];

// What a search answered.
#[derive(Clone, Copy)]
struct Answer(Result<Searched, Refusal>);

impl fmt::Display for Answer {
    fn fmt<W: fmt::Write>(&self, f: &mut fmt::Formatter<W>) -> fmt::Result {
        match self.0 {
            Ok(searched) => {
                let count = searched.count;
                let passes = searched.passes;
                let end = if searched.complete { "" } else { "not " };
                write!(f, "{count} listed, passes {passes}, {end}complete")
            }
            Err(refusal) => write!(f, "refused with {}", refusal.number()),
        }
    }
}

// Bytes in hexadecimal, a space before each eight.
#[derive(Clone, Copy)]
struct Eights<'a>(&'a [u8]);

impl fmt::Display for Eights<'_> {
    fn fmt<W: fmt::Write>(&self, f: &mut fmt::Formatter<W>) -> fmt::Result {
        for eight in self.0.chunks(8) {
            write!(f, " ")?;
            for byte in eight {
                write!(f, "{byte:02x}")?;
            }
        }
        Ok(())
    }
}

// What was answered, and the bridge and how many IDs are listed afterwards.
fn outcome(
    rt: &impl Print,
    title: &str,
    before: Bridge,
    answer: Result<Searched, Refusal>,
) -> io::Result<(Bridge, usize)> {
    let (after, count) = answer.map_or((before, 0), |s| (s.bridge, s.count));
    print!(rt; "{title}: {}, status {:02x}", Answer(answer), after.read())?;
    Ok((after, count))
}

pub(crate) fn search(rt: &impl Print, title: &str, bridge: Bridge, b: u16) -> io::Result<Bridge> {
    let mut list = BLANK;
    let answer = search::search(bridge, b, &mut list);
    let (after, count) = outcome(rt, title, bridge, answer)?;
    println!(rt; "{}", Eights(&list[..count % 65 * 8]))?;
    Ok(after)
}

// ---- a list that is too long to print

// Of two IDs the one that has 0 at the lowest bit where they differ comes first.
fn key(id: &[u8; 8]) -> u64 {
    identity::number(id).reverse_bits()
}

// How many of the IDs come before the one after them.
fn in_order(ids: &[[u8; 8]]) -> usize {
    ids.windows(2)
        .filter(|pair| key(&pair[0]) < key(&pair[1]))
        .count()
}

// The first and the last of the IDs, and how many of them come before the one after them.
pub(crate) fn ends(rt: &impl Print, title: &str, bridge: Bridge, b: u16) -> io::Result<()> {
    let mut list = BLANK;
    let answer = search::search(bridge, b, &mut list);
    let (_, count) = outcome(rt, title, bridge, answer)?;
    let (ids, _) = list.as_chunks::<8>();
    let ids = &ids[..count % 65];
    if let (Some(first), Some(last)) = (ids.first(), ids.last()) {
        let good = in_order(ids);
        print!(rt; "{} to{}, in order {good}", Eights(first), Eights(last))?;
    }
    println!(rt; "")
}

// ---- lists of other lengths

// A search whose list is the first bytes of a buffer, of which the first 40 are shown.
pub(crate) fn room(
    rt: &impl Print,
    title: &str,
    bridge: Bridge,
    b: u16,
    room: usize,
) -> io::Result<()> {
    let mut buffer = BLANK;
    let answer = search::search(bridge, b, &mut buffer[..room.min(512)]);
    outcome(rt, title, bridge, answer)?;
    println!(rt; "{}", Eights(buffer.get(..40).unwrap_or(&[])))
}

// ---- Resume

// The probes that a Resume selects.
pub(crate) fn resumed(rt: &impl Print, title: &str, bridge: Bridge) -> io::Result<()> {
    print!(rt; "{title}:")?;
    for p in &lines::resumed(bridge).line.probes {
        if let Condition::Selected = p.condition {
            print!(rt; "{}", Eights(&p.id.to_le_bytes()))?;
        }
    }
    println!(rt; "")
}

// The status after a 1-Wire reset at overdrive.
pub(crate) fn presence(rt: &impl Print, title: &str, bridge: Bridge) -> io::Result<()> {
    println!(rt;
        "{title}, status {:02x}",
        lines::reset_at_overdrive(bridge).read()
    )
}

pub(crate) fn pullup(rt: &impl Print, title: &str, bridge: Bridge) -> io::Result<()> {
    let now = if bridge.registers.pullup { "on" } else { "off" };
    println!(rt; "{title}: it is {now}")
}

// The bridge after a search, of which nothing is printed.
pub(crate) fn found(bridge: Bridge, b: u16) -> Bridge {
    let mut list = BLANK;
    search::search(bridge, b, &mut list).map_or(bridge, |s| s.bridge)
}
