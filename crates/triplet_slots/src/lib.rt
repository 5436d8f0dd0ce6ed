// The three slots of a triplet, in one go where that is the same as slot after slot.
//
// While a search goes on, every probe rests or is in the first slot of a search bit. Then the first two levels are found without moving the
// line, the bit of the third slot follows from them, and each searching probe takes it.
//
// Worked example: a searching probe whose next bit is 1 gives the levels 1 and 0, and after a third slot of 1 it searches on.
#![tactic(auto)]

ghost use Rattle.std.specs.Prelude.{◌≡◌, true, not, IfSome};
ghost use Rattle.line.specs.Line.{all, fitted, on_fitted};
ghost use Rattle.byte_slots.specs.SlotBySlot.{slot_in};
ghost use Rattle.triplet_slots.specs.Triplet.{chosen as chosen_by, first_level, second_level, written_bit, after_triplet};
ghost use Rattle.triplet_slots.specs.Triplet.{second_in, written_in, triplet_in, settled as settled_at, Sends, decided};

use byte_slots::SlotBySlot;
use line::Line;
use probe::{Condition, LAST_BIT, Probe, Slot};

// The levels of the first two slots, the bit written in the third, and the line after them.
#[derive(Clone, Copy)]
pub struct Tripled<L> {
    pub first: bool,
    pub second: bool,
    pub bit: bool,
    pub line: L,
}

// The bit that a triplet writes after its two levels.
// As it is: `first || !second && direction` would be no plainer; this reads as the definition does.
fn chosen(first: bool, second: bool, direction: bool) -> bool
    ensures { result ≡ chosen_by first second direction }
{
    if first {
        true
    } else if second {
        false
    } else {
        direction
    }
}

// A searching probe takes the third level of its bit. Each outcome has an assignment of its own, since one place that stores what several
// ways have made waits for the memory.
#[tactic(auto, using(crate::proofs::Settled::decided_on, crate::proofs::Settled::decided_last, crate::proofs::Settled::decided_off), unfolding(crate::specs::Triplet::decided, crate::specs::Triplet::decided_in))]
fn decide(p: &mut Probe, level: bool)
    ensures { p.new ≡ decided level p.old }
{
    if let Condition::Searching { bit, .. } = p.condition {
        if !p.agrees(level, bit) {
            *p = p.in_condition(Condition::Deaf);
        } else if bit < LAST_BIT {
            *p = p.in_condition(Condition::Searching {
                bit: bit + 1,
                slot: Slot::First,
            });
        } else {
            *p = p.with_mark(true, Condition::Selected);
        }
    }
}

// As it is: see `taken_byte` of byte_slots.
#[tactic(auto, using(line::proofs::Front::stepped_set, line::proofs::Steps::front_all))]
fn all_decided(mut line: Line, level: bool) -> Line
    ensures { result ≡ on_fitted (decided level) line }
{
    let n = line.entries();
    let on = &mut line;
    for p in &mut on.probes[..n] {
        decide(p, level);
    }
    line
}

// The bit that a probe sends in the first slot, and then its complement, where that is settled before they begin.
fn next_bit(p: Probe, speed: u32) -> Option<bool>
    ensures { IfSome result (λ bit. Sends speed bit (not bit) p) }
{
    if !p.reached(speed) {
        return None;
    }
    let Condition::Searching { bit, slot } = p.condition else {
        return None;
    };
    let Slot::First = slot else {
        return None;
    };
    let sent = identity::bit(p.id, bit);
    Some(sent)
}

// What the first two slots come to, where that is settled before they begin. Most probes of a pass rest, so these are passed by first.
fn outlook(line: &Line, speed: u32) -> Option<(bool, bool)>
    ensures { IfSome result (λ levels. (all (settled_at speed) (fitted line.now) ≡ true) × (levels.0 ≡ first_level speed line.now) × (levels.1 ≡ second_level speed line.now)) }
{
    let n = line.entries();
    let mut first = true;
    let mut second = true;
    for p in &line.probes[..n] {
        if p.rests() {
            continue;
        }
        let bit = next_bit(*p, speed)?;
        first = first & bit;
        second = second & !bit;
    }
    Some((first, second))
}

// A triplet at this speed, one slot after the other.
pub fn three<L: SlotBySlot>(start: L, speed: u32, direction: bool) -> Tripled<L>
    ensures { (result.first ≡ L.level_in speed true start) × (result.second ≡ second_in L.level_in L.taken_in speed start)
        × (result.bit ≡ written_in L.level_in L.taken_in speed direction start) × (result.line ≡ triplet_in L.level_in L.taken_in speed direction start) }
{
    let first = start.level(speed, true);
    let once = start.taken(speed, first);
    let second = once.level(speed, true);
    let twice = once.taken(speed, second);
    let written = chosen(first, second, direction);
    let third = twice.level(speed, written);
    Tripled {
        first,
        second,
        bit: written,
        line: twice.taken(speed, third),
    }
}

// A triplet at this speed: two slots in which the bridge writes 1, then one with the bit that their levels and the direction choose.
pub fn triplet(line: Line, speed: u32, direction: bool) -> Tripled<Line>
    ensures { (result.first ≡ first_level speed line) × (result.second ≡ second_level speed line)
        × (result.bit ≡ written_bit speed direction line) × (result.line ≡ after_triplet speed direction line) }
{
    if let Some((first, second)) = outlook(&line, speed) {
        let bit = chosen(first, second, direction);
        Tripled {
            first,
            second,
            bit,
            line: all_decided(line, bit),
        }
    } else {
        three(line, speed, direction)
    }
}
