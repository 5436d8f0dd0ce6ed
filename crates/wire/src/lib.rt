// The line with chips on it: probes of the second kind, each with its sensor (document 02, R-7).
//
// The chips stand in a table beside the line's, entry by entry. In a slot the level is 0 if the bridge writes 0 or any probe or any chip
// that listens sends 0; the chips that listen hear it, one that is done is deaf, and then every probe takes it. While no chip listens, a
// slot is the line's own.
//
// Worked example: a chip that is in the second poll slot of its answer leaves the line at 0 in a slot in which the bridge writes 1.
#![tactic(auto)]

ghost use Rattle.std.specs.Prelude.{◌≡◌, true, ◌+◌, ◌*◌, ◌≤◌, ◌<◌, length, take};
ghost use Rattle.wire.specs.Pairs.{both_all};
ghost use Rattle.wire.specs.Wire.{no_chips, fellows, listens, lets, level_on, heard_by, heard_on, quieted, quieted_on, took_on, slot_on};
ghost use Rattle.wire.specs.Wire.{slots_on, levels_on, second_on, written_on, triplet_on, reset_reaches, emptied_by, emptied_on, chips_without};
ghost use Rattle.wire.specs.Calm.{slot_of, calm, calm_with, all_calm};

use byte_slots::{Levels, SlotBySlot};
use chip::{Chip, NO_ADDRESS};
use line::{Line, MOST, Slotted};
use probe::{Condition, Probe, STANDARD, Slot};
use triplet_slots::Tripled;

// The table of chips: its first `count` entries are in use, and stand beside the probes in the same order. An entry that is not in use
// holds what stands for a probe of the old kind.
// As it is: a table of fixed memory with its count beside the line's; `fellows`, `heard_on` and `chips_with` are over both tables.
#[derive(Clone, Copy)]
pub struct Chips {
    pub table: [Chip; 64],
    pub count: usize,
}

// The line and its chips.
#[derive(Clone, Copy)]
pub struct Wire {
    pub line: Line,
    pub chips: Chips,
}

impl Chips {
    // No chip is fitted.
    // As it is: each table has its own free entry, as line's `bare` has.
    pub fn none() -> Chips
        ensures { result ≡ no_chips }
    {
        let none = Chip::none();
        Chips {
            table: [none; 64],
            count: 0,
        }
    }

    // How many entries are in use. No table that calls reach has more than 64; with the bound the loops need no premise.
    // As it is: the table's fields are public, so an invariant `count ≤ 64` would ask more of whoever builds one; as in line's `entries`.
    fn entries(self) -> usize
        ensures { (length self.table ≡ 64) × (result ≤ 64) × (result ≤ self.count) × (result < 64 → result ≡ self.count) }
    {
        self.count.min(MOST)
    }
}

// ---- one probe and its entry

// The probe is a chip that is selected, and a slot at this speed reaches it.
// As it is: a probe and its chip lie in two tables (`fellows`), and each loop changes one of them, so a struct of both would be built anew.
#[tactic(auto, unfolding(crate::specs::Wire::listens, crate::specs::Wire::is_selected))]
fn listening(p: Probe, c: Chip, speed: u32) -> bool
    ensures { result ≡ listens speed p c }
{
    c.address < NO_ADDRESS && matches!(p.condition, Condition::Selected) && p.reached(speed)
}

// What it lets the line be: false where it listens and sends 0.
#[tactic(auto, unfolding(crate::specs::Wire::lets))]
fn lets(p: Probe, c: Chip, speed: u32) -> bool
    ensures { result ≡ lets speed p c }
{
    !listening(p, c, speed) || c.sends()
}

// A chip that listens hears the level.
#[tactic(auto, unfolding(crate::specs::Wire::heard_by))]
fn hear(c: &mut Chip, p: Probe, speed: u32, level: bool)
    ensures { c.new ≡ heard_by speed level p c.old }
{
    if listening(p, *c, speed) {
        *c = c.heard(level);
    }
}

// A chip that listens and is over is deaf.
#[tactic(auto, unfolding(crate::specs::Wire::quieted))]
fn deafen(p: &mut Probe, c: Chip, speed: u32)
    ensures { p.new ≡ quieted speed c p.old }
{
    if listening(*p, c, speed) && c.over() {
        *p = p.in_condition(Condition::Deaf);
    }
}

// A 1-Wire reset at this speed reaches the probe.
fn reset_reaches(p: Probe, speed: u32) -> bool
    ensures { result ≡ reset_reaches speed p }
{
    speed == STANDARD || p.reached(speed)
}

// A chip that a 1-Wire reset at this speed reaches has gathered nothing. Its packet alone is stored, since the rest stays.
#[tactic(auto, unfolding(crate::specs::Wire::emptied_by, chip::specs::Chip::emptied))]
fn empty(c: &mut Chip, p: Probe, speed: u32)
    ensures { c.new ≡ emptied_by speed p c.old }
{
    if c.address < NO_ADDRESS && reset_reaches(p, speed) {
        c.packet = c.emptied().packet;
    }
}

// Which of the 192 slots of a search comes next.
#[tactic(auto, unfolding(crate::specs::Calm::slot_of))]
fn slot_of(bit: u8, slot: Slot) -> u16
    ensures { (result ≡ slot_of bit slot) × (result < 1000) }
{
    match slot {
        Slot::First => 3 * bit as u16,
        Slot::Second => 3 * bit as u16 + 1,
        Slot::Third => 3 * bit as u16 + 2,
    }
}

// The probe is not selected before any of the next n slots. Of conditions that calls do not reach it may say less than it could.
#[tactic(auto, using(crate::proofs::Listens::calm_some), unfolding(crate::specs::Calm::calm, crate::specs::Calm::calm_in))]
fn calm(p: Probe, n: u8) -> bool
    ensures { result ≡ calm n p }
{
    if n == 0 {
        return true;
    }
    match p.condition {
        Condition::Deaf => true,
        Condition::Taking { count, .. } => count as u16 + n as u16 <= 8,
        Condition::Sending { bit } => bit as u16 + n as u16 <= 64,
        Condition::Matching { bit, .. } => bit as u16 + n as u16 <= 64,
        Condition::Searching { bit, slot } => slot_of(bit, slot) + n as u16 <= 192,
        Condition::Selected => false,
    }
}

// A chip is not selected before any of the next n slots.
fn calm_with(p: Probe, c: Chip, n: u8) -> bool
    ensures { result ≡ calm_with n p c }
{
    NO_ADDRESS <= c.address || calm(p, n)
}

// ---- the line and its chips

// How many probes have an entry among the chips. The other clauses are what a loop over both tables asks.
fn pairs(line: &Line, chips: &Chips) -> usize
    ensures { (result ≤ 64) × (length line.now.probes ≡ 64) × (length chips.now.table ≡ 64)
        × (take result line.now.probes ≡ fellows line.now chips.now)
        × (take result chips.now.table ≡ take line.now.count (take chips.now.count chips.now.table)) }
{
    let probes = line.entries();
    let entries = chips.entries();
    probes.min(entries)
}

// No chip is selected before any of the next n slots. A station's line and chips lie apart, and for a look they are not copied into a wire.
#[tactic(auto, unfolding(crate::specs::Calm::all_calm))]
pub fn chips_calm(line: &Line, chips: &Chips, n: u8) -> bool
    ensures { result ≡ all_calm n line.now chips.now }
{
    let m = pairs(line, chips);
    line.probes[..m]
        .iter()
        .zip(&chips.table[..m])
        .all(|(p, c)| calm_with(*p, *c, n))
}

impl SlotBySlot for Wire {
    ghost level_in = { level_on };

    ghost taken_in = { took_on };

    #[tactic(auto, unfolding(crate::specs::Wire::level_on))]
    fn level(self, speed: u32, write: bool) -> bool {
        self.line.level(speed, write) && self.all_let(speed)
    }

    // The chips hear the level before the probes take it.
    #[tactic(auto, unfolding(crate::specs::Wire::took_on))]
    fn taken(mut self, speed: u32, level: bool) -> Wire {
        self.hear_level(speed, level);
        self.quiet_over(speed);
        self.line = self.line.taken(speed, level);
        self
    }
}

impl Wire {
    // No chip that listens sends 0.
    fn all_let(&self, speed: u32) -> bool
        ensures { result ≡ both_all (lets speed) (fellows self.now.line self.now.chips) self.now.chips.table }
    {
        let n = pairs(&self.line, &self.chips);
        self.line.probes[..n]
            .iter()
            .zip(&self.chips.table[..n])
            .all(|(p, c)| lets(*p, *c, speed))
    }

    // Every chip that listens hears the level.
    // As it is: one loop with a closure needs clauses for the closure that are longer than the loop it spares.
    fn hear_level(&mut self, speed: u32, level: bool)
        ensures { (self.new.line ≡ self.old.line) × (self.new.chips ≡ heard_on speed level self.old.line self.old.chips) }
    {
        let n = pairs(&self.line, &self.chips);
        let line = &self.line;
        let on = &mut self.chips;
        // As it is: of a loop over `iter_mut().zip(..)` the proof of `heard_on` does not close; so in `quiet_over` and `emptied`.
        for (i, c) in on.table[..n].iter_mut().enumerate() {
            hear(c, line.probes[i], speed, level);
        }
    }

    // Every chip that listens and is over is deaf.
    fn quiet_over(&mut self, speed: u32)
        ensures { (self.new.line ≡ quieted_on speed self.old.chips self.old.line) × (self.new.chips ≡ self.old.chips) }
    {
        let n = pairs(&self.line, &self.chips);
        let chips = &self.chips;
        let on = &mut self.line;
        for (i, p) in on.probes[..n].iter_mut().enumerate() {
            deafen(p, chips.table[i], speed);
        }
    }

    // One slot, in which the bridge writes a bit.
    // As it is: `Line::slot` lies below the trait of both, so one function for the two would be a third; each is a level and a `taken`.
    #[tactic(auto, unfolding(crate::specs::Wire::slot_on))]
    pub fn slot(self, speed: u32, write: bool) -> Slotted<Wire>
        ensures { (result.level ≡ level_on speed write self) × (result.line ≡ slot_on speed write self) }
    {
        let level = self.level(speed, write);
        Slotted {
            level,
            line: self.taken(speed, level),
        }
    }

    // Eight slots at this speed with the bits of a byte, low bit first.
    #[tactic(auto, using(crate::proofs::Turns::slots_wire, crate::proofs::Turns::levels_wire))]
    pub fn slots(self, speed: u32, byte: u8) -> Levels<Wire>
        ensures { (result.byte ≡ levels_on speed 8 byte self) × (result.line ≡ slots_on speed 8 byte self) }
    {
        byte_slots::eight(self, speed, byte)
    }

    // A triplet at this speed: two slots in which the bridge writes 1, then one with the bit that their levels and the direction choose.
    #[tactic(auto, unfolding(byte_slots::specs::SlotBySlot::slot_in, crate::specs::Wire::slot_on))]
    pub fn triplet(self, speed: u32, direction: bool) -> Tripled<Wire>
        ensures { (result.first ≡ level_on speed true self) × (result.second ≡ second_on speed self)
            × (result.bit ≡ written_on speed direction self) × (result.line ≡ triplet_on speed direction self) }
    {
        triplet_slots::three(self, speed, direction)
    }

    // Every chip that a 1-Wire reset at this speed reaches has gathered nothing.
    pub fn emptied(mut self, speed: u32) -> Chips
        ensures { result ≡ emptied_on speed self.line self.chips }
    {
        let n = pairs(&self.line, &self.chips);
        let wire = &mut self;
        let line = &wire.line;
        let on = &mut wire.chips;
        for (i, c) in on.table[..n].iter_mut().enumerate() {
            empty(c, line.probes[i], speed);
        }
        self.chips
    }

    // The chips without that of the probe with this ID. They are laid anew, one behind the other, over the entries of power-on.
    // As it is: withdrawal's goes by one table, this by two; the entries kept go to a table of fixed memory, whose count is the next place.
    pub fn without(self, id: u64) -> Chips
        ensures { result ≡ chips_without id self.line self.chips }
    {
        let n = pairs(&self.line, &self.chips);
        let mut rest = Chips::none();
        for (p, c) in self.line.probes[..n].iter().zip(&self.chips.table) {
            if id != p.id {
                let to = rest.count;
                rest.table[to] = *c;
                rest.count = to + 1;
            }
        }
        rest
    }

    // No chip is selected before any of the next n slots, so that they are the line's alone.
    pub fn all_calm(self, n: u8) -> bool
        ensures { result ≡ all_calm n self.line self.chips }
    {
        chips_calm(&self.line, &self.chips, n)
    }
}
