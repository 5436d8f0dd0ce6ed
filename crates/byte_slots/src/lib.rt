// The eight slots of a byte, in one go where that is the same as slot after slot.
//
// A line on which every probe rests is given back as it is. What a probe sends in the eight slots to come is mostly settled before they
// begin, and whether they reach it. Where that is so for every probe, and no slot passes by one that is awake, the levels are found first
// and each probe takes all of them at once.
//
// Worked example: a line of two probes that send their IDs, the next eight bits of one being 3Fh and of the other F5h, reads as 35h.
#![tactic(auto)]

ghost use Rattle.std.specs.Prelude.{◌≡◌, ℕ, ◌+◌, ◌*◌, ◌/◌, ◌%◌, ◌^◌, Bool, true, IfSome};
ghost use Rattle.probe.specs.declared.Condition.TheVariants.{Matching};
ghost use Rattle.probe.specs.Probe.{rests};
ghost use Rattle.line.specs.Line.{all, fitted, on_fitted, level as level_of, levels as levels_of, slots as slots_of};
ghost use Rattle.byte_slots.specs.Foresight.{foreseen, ahead, meet, took_bits};
ghost use Rattle.byte_slots.specs.SlotBySlot.{slots_in, levels_in, line_took};

use line::Line;
use probe::{Condition, MATCH_ROM, Probe, READ_ROM, RESUME, SEARCH_ROM, SEARCHING, SKIP_ROM};

// What carries slots, with whatever is on it.
pub trait SlotBySlot: Copy {
    ghost level_in: { ℕ → Bool → Self → Bool };

    ghost taken_in: { ℕ → Bool → Self → Self };

    // What the wire carries in a slot at this speed in which the bridge writes a bit.
    fn level(self, speed: u32, write: bool) -> bool
        ensures { result ≡ level_in speed write self };

    // All that a slot at this speed reaches takes the level.
    fn taken(self, speed: u32, level: bool) -> Self
        ensures { result ≡ taken_in speed level self };
}

impl SlotBySlot for Line {
    ghost level_in = { level_of };

    ghost taken_in = { line_took };

    fn level(self, speed: u32, write: bool) -> bool {
        self.level(speed, write)
    }

    fn taken(self, speed: u32, level: bool) -> Line {
        self.taken(speed, level)
    }
}

// The levels of eight slots, the first in the low bit, and the line after them.
#[derive(Clone, Copy)]
pub struct Levels<L> {
    pub byte: u8,
    pub line: L,
}

// What a probe is in once it has taken Match ROM.
// As it is: probe's `matching` makes it from the fallback; made public for this one constant it would be no plainer.
const MATCHING: Condition = Condition::Matching {
    bit: 0,
    fallback: false,
};

// The number of a bit from which eight are left.
const LAST_EIGHT: u8 = 56;

// The next eight slots at this speed all reach the probe, and what it sends in them does not depend on their levels; or it rests.
#[tactic(auto, unfolding(crate::specs::Foresight::foreseen, crate::specs::Foresight::foreseen_in))]
fn foreseen(p: Probe, speed: u32) -> bool
    ensures { result ≡ foreseen speed 8 p }
{
    match p.condition {
        Condition::Deaf | Condition::Selected => true,
        Condition::Taking { count, .. } => count == 0 && p.reached(speed),
        Condition::Sending { bit } => bit <= LAST_EIGHT && p.reached(speed),
        Condition::Matching { .. } => p.reached(speed),
        Condition::Searching { .. } => false,
    }
}

// The eight bits of an ID from this one up; those past the last are 0.
#[tactic(auto, using(crate::proofs::Digits::past_id))]
fn eight_bits(id: u64, bit: u8) -> u8
    ensures { result ≡ id / 2 ^ bit % 256 }
{
    if bit < 64 {
        ((id >> bit) % 256) as u8
    } else {
        0
    }
}

// What a foreseen probe lets the line be in the next eight slots, the first in the low bit.
#[tactic(auto, unfolding(crate::specs::Foresight::ahead, crate::specs::Foresight::ahead_in))]
fn ahead(p: Probe) -> u8
    ensures { result ≡ ahead 8 p }
{
    match p.condition {
        Condition::Sending { bit } => eight_bits(p.id, bit),
        _ => 255,
    }
}

// The probe after eight slots whose levels are the bits of a byte.
#[tactic(auto, using(crate::proofs::Turns::took_bits_next), unfolding(crate::specs::Foresight::took_bits))]
fn took_bits(before: Probe, byte: u8) -> Probe
    ensures { result ≡ took_bits 8 byte before }
{
    let mut p = before;
    let mut rest = byte;
    for _i in 0..8u8 {
        p = p.took(rest % 2 == 1);
        rest = rest / 2;
    }
    p
}

// One that matches its ID goes on by eight bits if all of them agree. Each outcome is stored by itself: see `take_byte`.
#[tactic(auto, using(crate::proofs::Whole::matching_byte, crate::proofs::Whole::matched_byte, crate::proofs::Whole::other_byte))]
fn match_byte(p: &mut Probe, bit: u8, fallback: bool, byte: u8)
    requires { p.old.condition ≡ Matching bit fallback }
    ensures { p.new ≡ took_bits 8 byte p.old }
{
    if LAST_EIGHT < bit {
        *p = took_bits(*p, byte);
    } else if eight_bits(p.id, bit) != byte {
        *p = p.differed(fallback);
    } else if bit < LAST_EIGHT {
        *p = p.in_condition(Condition::Matching {
            bit: bit + 8,
            fallback,
        });
    } else {
        *p = p.with_mark(true, Condition::Selected);
    }
}

// No slot changes any probe of the line.
fn all_rest(line: &Line) -> bool
    ensures { result ≡ all rests (fitted line.now) }
{
    let n = line.entries();
    line.probes[..n].iter().all(|p| p.rests())
}

// What eight slots come to, where that is settled before they begin: every probe is foreseen.
#[tactic(auto, using(line::proofs::Front::all_next, crate::proofs::Turns::meet_next), unfolding(line::specs::Line::all, crate::specs::Foresight::meet))]
fn outlook(line: &Line, speed: u32, byte: u8) -> Option<u8>
    ensures { IfSome result (λ levels. (all (foreseen speed 8) (fitted line.now) ≡ true) × (levels ≡ meet 8 byte (fitted line.now))) }
{
    let n = line.entries();
    let mut levels = byte;
    for p in &line.probes[..n] {
        if !foreseen(*p, speed) {
            return None;
        }
        levels = levels & ahead(*p);
    }
    Some(levels)
}

// A probe takes eight levels that reach it, the bits of a byte. A code of which no bit has come yet is the byte. Each outcome that is met
// often has an assignment of its own, since one place that stores what several ways have made waits for the memory.
// As it is: the probe's own condition says which step is taken, and no caller hands one in.
#[tactic(auto, using(crate::proofs::Whole::resting_byte, crate::proofs::Whole::sending_byte, crate::proofs::Whole::sent_byte), unfolding(probe::specs::Probe::obeyed))]
fn take_byte(p: &mut Probe, byte: u8)
    ensures { p.new ≡ took_bits 8 byte p.old }
{
    match p.condition {
        Condition::Deaf | Condition::Selected => {}
        Condition::Taking {
            count: 0,
            code: _code,
        } => match byte {
            READ_ROM => *p = p.with_mark(false, Condition::Sending { bit: 0 }),
            MATCH_ROM => *p = p.with_mark(false, MATCHING),
            SEARCH_ROM => *p = p.with_mark(false, SEARCHING),
            SKIP_ROM => *p = p.with_mark(false, Condition::Selected),
            RESUME => *p = p.in_condition(probe::resumed(p.marked)),
            _ => *p = p.obeyed(byte),
        },
        Condition::Sending { bit } if bit < LAST_EIGHT => *p = p.in_condition(Condition::Sending {
            bit: bit + 8,
        }),
        Condition::Sending { bit: LAST_EIGHT } => *p = p.in_condition(Condition::Selected),
        Condition::Matching { bit, fallback } => match_byte(p, bit, fallback, byte),
        _ => *p = took_bits(*p, byte),
    }
}

// As it is: a public function of line that calls a closure for each probe would need a `requires`, which public functions do not have here.
#[tactic(auto, using(line::proofs::Front::stepped_set, line::proofs::Steps::front_all))]
fn taken_byte(mut line: Line, byte: u8) -> Line
    ensures { result ≡ on_fitted (took_bits 8 byte) line }
{
    let n = line.entries();
    let on = &mut line;
    for p in &mut on.probes[..n] {
        take_byte(p, byte);
    }
    line
}

// Eight slots at this speed with the bits of a byte, low bit first, one slot after the other.
pub fn eight<L: SlotBySlot>(start: L, speed: u32, byte: u8) -> Levels<L>
    ensures { (result.byte ≡ levels_in L.level_in L.taken_in speed 8 byte start) × (result.line ≡ slots_in L.level_in L.taken_in speed 8 byte start) }
{
    let mut line = start;
    let mut rest = byte;
    let mut levels: u8 = 0;
    for _i in 0..8u8 {
        let level = line.level(speed, rest % 2 == 1);
        line = line.taken(speed, level);
        levels = byte::with_level(levels, level);
        rest = rest / 2;
    }
    Levels { byte: levels, line }
}

// Eight slots at this speed with the bits of a byte, low bit first.
#[tactic(auto, using(crate::proofs::Resting::slots_rest, crate::proofs::Resting::levels_rest, crate::proofs::Foresight::slots_byte, crate::proofs::Foresight::levels_byte, crate::proofs::Turns::slots_line, crate::proofs::Turns::levels_line))]
pub fn slots(line: Line, speed: u32, byte: u8) -> Levels<Line>
    ensures { (result.byte ≡ levels_of speed 8 byte line) × (result.line ≡ slots_of speed 8 byte line) }
{
    if all_rest(&line) {
        Levels { byte, line }
    } else if let Some(levels) = outlook(&line, speed, byte) {
        Levels {
            byte: levels,
            line: taken_byte(line, levels),
        }
    } else {
        eight(line, speed, byte)
    }
}
