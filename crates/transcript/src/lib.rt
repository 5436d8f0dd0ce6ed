// The run of a script (document 01, "The bench script").
//
// The events of a well-formed script run one after the other through the bridge, from power-on with no probe, and each gives a line: its
// number from 1, its letter, and the byte read or the number of the answer. A malformed script is refused with 15 and nothing runs.
//
// Worked example: for 00 05 1F 04 6D 24 the lines are 1 W 0, 2 R 18, 3 W 0, 4 T 0 and 5 R 18, which are 32 bytes.
#![tactic(auto)]

mod text;

ghost use Rattle.std.specs.Prelude.{◌≡◌, true, ◌+◌, ◌*◌, ◌^◌, ◌<◌, ◌≤◌, length, take};
ghost use Rattle.bridge.specs.Bridge.{power_on, after_time};
ghost use Rattle.script.specs.Script.{bytes_at, count_of, event_at, is_script};
ghost use Rattle.transcript.specs.Text.{Put, Puts, behind_number};
ghost use Rattle.transcript.specs.Transcript.{step_at, lines_from, number_of, run_of, run_buffer};

use bridge::{Bridge, Pending};
use script::{Event, Reader};
use text::Lines;

// The most bytes that a run writes: 16,376 events of two bits fill the longest script, and no line is longer than 11 bytes.
pub const MOST: usize = 180136;

// Why no event of a script is run.
#[derive(Clone, Copy, PartialEq, Eq)]
pub enum Refusal {
    Malformed,
}

impl Refusal {
    // Its number in the table of document 01.
    pub fn number(self) -> u8
        ensures { result ≡ number_of self }
    {
        match self {
            Refusal::Malformed => 15,
        }
    }
}

// The n bytes from the reader's place on, at the front of an array.
// As it is: fixed memory; a write takes the first n, a fitting all eight, and the contract is over `take n`.
fn gathered(mut reader: Reader, n: usize) -> [u8; 8]
    requires { (n ≤ 8) × (reader.place + 8 * n < 2 ^ 64) }
    ensures { (length result ≡ 8) × (take n result ≡ bytes_at reader.entry.script.now reader.entry.place n) }
{
    let mut bytes = [0u8; 8];
    for byte in &mut bytes[..n] {
        let piece = reader.bits(script::BYTE);
        *byte = piece.number as u8;
        reader.place = piece.next;
    }
    bytes
}

// What is pending has its effect. A function pays at entry for its locals, and a bridge is a large one, so a wait with nothing pending
// does not come here.
#[inline(never)]
fn finish(bridge: &mut Bridge)
    ensures { bridge.new ≡ after_time bridge.old }
{
    *bridge = bridge.wait();
}

// Lets time pass. With nothing pending the bridge stays where it is.
#[tactic(auto, unfolding(bridge::specs::Bridge::after_time, bridge::specs::Bridge::finished_of))]
fn pass_time(bridge: &mut Bridge)
    ensures { bridge.new ≡ after_time bridge.old }
{
    match bridge.registers.pending {
        Pending::Nothing => {}
        _ => finish(bridge),
    }
}

// Runs the event at the reader's place and puts what stands behind its number. Each kind has its own way through, so that a read, a
// wait with nothing pending and what is refused move no bridge.
// As it is: the event says which step is taken; one function for both answers would take the letter and two closures to spare a few lines.
fn step(reader: Reader, event: Event, bridge: &mut Bridge, lines: &mut Lines)
    requires event_is { event ≡ event_at reader.script.now reader.place }
    requires place_fits { reader.place + 66 < 2 ^ 64 }
    requires room { lines.old.len + 6 ≤ length lines.old.out.now }
    ensures bridge_after { bridge.new ≡ (step_at reader.entry.script.now reader.entry.place bridge.old).bridge }
    ensures puts { let t = step_at reader.entry.script.now reader.entry.place bridge.old in
        Puts lines.old lines.new (behind_number t.letter t.value) }
    ensures upper_bound { lines.new.len ≤ lines.old.len + 6 }
{
    match event {
        Event::Write { n } => {
            let n = n as usize;
            let bytes = gathered(reader.moved(reader.place + script::HEAD), n);
            match bridge.write(&bytes[..n]) {
                Ok(after) => {
                    lines.number(b'W', 0);
                    *bridge = after;
                }
                Err(refusal) => lines.number(b'W', refusal.number()),
            }
        }
        Event::Read => lines.hexadecimal(bridge.read()),
        Event::Wait => {
            lines.number(b'T', 0);
            pass_time(bridge);
        }
        Event::Fit => {
            let id = gathered(reader.moved(reader.place + script::KIND), 8);
            match bridge.fit(&id) {
                Ok(after) => {
                    lines.number(b'F', 0);
                    *bridge = after;
                }
                Err(refusal) => lines.number(b'F', refusal.number()),
            }
        }
    }
}

// The events of a well-formed script, each with its line.
fn lines(script: &[u8], out: &mut [u8]) -> usize
    requires { (is_script script.now ≡ true) × (180136 ≤ length out.old) }
    ensures { (Put out.old out.new 0 result (lines_from script.now (count_of script.now) 1 16 power_on)) × (result ≤ 180136) }
{
    let mut lines = Lines { out, len: 0 };
    let mut bridge = Bridge::power_on();
    let mut reader = Reader::opened(script).moved(script::FIRST);
    for before in 0..script::count_of(script) {
        lines.decimal(before + 1);
        let event = reader.event();
        step(reader, event, &mut bridge, &mut lines);
        reader.place += event.size();
    }
    lines.len
}

// Runs a script. Its lines come to lie at the front of the buffer; a refused script changes no byte.
// As it is: `run_of` gives the length, and `run_buffer` what all of `out` holds, on a refusal too.
pub fn transcript(script: &[u8], out: &mut [u8; MOST]) -> Result<usize, Refusal>
    ensures value { result ≡ run_of script.now }
    ensures out_after { out.new ≡ run_buffer script.now out.old }
{
    if script::is_script(script) {
        Ok(lines(script, out))
    } else {
        Err(Refusal::Malformed)
    }
}
