// The line: up to 64 probes on one wire (document 01, "Probe identities" and "The probes", and document 02, R-2).
//
// In a slot the bridge writes a bit and each probe may send one; the level is 0 if the bridge writes 0 or any probe sends 0, else 1, and
// every probe takes that level. A slot comes at a speed and reaches the probes of that speed alone.
//
// Worked example: two probes that send 1 and 0 leave the line at 0 in a slot in which the bridge writes 1.
#![tactic(auto)]

ghost use Rattle.std.specs.Prelude.{◌≡◌, cond, ltb, ◌<◌, ◌≤◌, length, take, drop};
ghost use Rattle.line.specs.Line.{all, any, fitted, bare, on_fitted, level, slot, after_reset, present, is_fitted};
ghost use Rattle.line.specs.Line.{fit_number, with_probe, after_fit, of_identity, number_returned, number_in, line_in};
ghost use Rattle.probe.specs.Probe.{reaches, sends_at, took_at};

use probe::{Probe, STANDARD};

// What is wrong with a fitting.
// As it is: document 01 has these four in one table, and a caller of `fit` matches one enum, not one in another.
#[derive(Clone, Copy, PartialEq, Eq)]
pub enum Refusal {
    // 64 probes are on the line.
    Full,
    // The CRC-8 of the ID is wrong.
    Crc,
    // The family code is 00h.
    Family,
    // The ID is on the line already.
    Fitted,
}

impl Refusal {
    // Its number in the table of document 01 ("Numbers returned").
    pub fn number(self) -> u8
        ensures { result ≡ number_returned self }
    {
        match self {
            Refusal::Full => 1,
            Refusal::Crc => 2,
            Refusal::Family => 3,
            Refusal::Fitted => 4,
        }
    }
}

// An ID that is wrong by itself is refused as it is there.
impl From<identity::Refusal> for Refusal {
    ghost from_gives = { λ own r. r ≡ of_identity own };

    fn from(own: identity::Refusal) -> Refusal {
        match own {
            identity::Refusal::Crc => Refusal::Crc,
            identity::Refusal::Family => Refusal::Family,
        }
    }
}

// The most probes that a line takes.
pub const MOST: usize = 64;

// The table of probes: the first `count` entries are fitted, in the order in which they came; the others hold one fixed value.
// As it is: memory is fixed, and the definitions `fitted`, `bare` and `on_fitted` are over these two.
#[derive(Clone, Copy)]
pub struct Line {
    pub probes: [Probe; 64],
    pub count: usize,
}

// A slot's level and the line after it.
#[derive(Clone, Copy)]
pub struct Slotted<L> {
    pub level: bool,
    pub line: L,
}

// What the probe lets the line be in a slot at this speed. Of one that sends 0 alone the speed is asked.
#[tactic(auto, unfolding(probe::specs::Probe::sends_at))]
fn lets(p: Probe, speed: u32) -> bool
    ensures { result ≡ sends_at speed p }
{
    p.sends() || !p.reached(speed)
}

// A slot at this speed comes to the probe. One that it does not change is left alone.
#[tactic(auto, using(probe::proofs::Rests::took_at_rests), unfolding(probe::specs::Probe::took_at))]
fn take_slot(p: &mut Probe, speed: u32, level: bool)
    ensures { p.new ≡ took_at speed level p.old }
{
    if !p.rests() && p.reached(speed) {
        *p = p.took(level);
    }
}

impl Line {
    // The line with no probe.
    #[tactic(auto, unfolding(crate::specs::Line::bare))]
    pub fn bare() -> Line
        ensures { result ≡ bare }
    {
        Line {
            probes: [Probe::newly_fitted(0); 64],
            count: 0,
        }
    }

    // How many entries are fitted. No line that calls reach has more than 64; with the bound the loops need no premise. The
    // last clause is the answer, the others are what a loop over the entries asks.
    // As it is: an invariant `count ≤ 64` of `Line`, whose fields are public, would ask more of whoever builds one.
    #[tactic(auto, using(crate::proofs::Front::beyond), unfolding(crate::specs::Line::fitted))]
    pub fn entries(self) -> usize
        ensures { (length self.probes ≡ 64) × (result ≤ 64)
            × (take result self.probes ≡ fitted self) × (drop result self.probes ≡ drop self.count self.probes)
            × (result ≡ cond (ltb self.count 64) self.count 64) }
    {
        self.count.min(MOST)
    }

    // The probes on the line, in the order in which they came.
    fn fitted(&self) -> &[Probe]
        ensures { result.now ≡ fitted self.now }
    {
        let n = self.entries();
        &self.probes[..n]
    }

    // Some probe is at this speed.
    fn some_reached(self, speed: u32) -> bool
        ensures { result ≡ any (reaches speed) (fitted self) }
    {
        self.fitted().iter().any(|p| p.reached(speed))
    }

    // Some probe answers a 1-Wire reset at this speed.
    #[tactic(auto, unfolding(crate::specs::Line::present))]
    pub fn present(self, speed: u32) -> bool
        ensures { result ≡ present speed self }
    {
        if speed == STANDARD {
            0 < self.count
        } else {
            self.some_reached(speed)
        }
    }

    // No probe that slots at this speed reach sends 0.
    fn all_send(self, speed: u32) -> bool
        ensures { result ≡ all (sends_at speed) (fitted self) }
    {
        self.fitted().iter().all(|p| lets(*p, speed))
    }

    // What the wire carries in a slot in which the bridge writes a bit.
    #[tactic(auto, unfolding(crate::specs::Line::level))]
    pub fn level(self, speed: u32, write: bool) -> bool
        ensures { result ≡ level speed write self }
    {
        write && self.all_send(speed)
    }

    // Every probe that the slot reaches takes the level.
    // As it is: of a part of an array of a `self` by value the check has no fact behind the loop, so it is lent; so in `reset_each`.
    fn take_level(&mut self, speed: u32, level: bool)
        ensures { self.new ≡ on_fitted (took_at speed level) self.old }
    {
        let n = self.entries();
        for p in &mut self.probes[..n] {
            take_slot(p, speed, level);
        }
    }

    // The line once every probe that the slot reaches has taken the level.
    pub fn taken(mut self, speed: u32, level: bool) -> Line
        ensures { result ≡ on_fitted (took_at speed level) self }
    {
        self.take_level(speed, level);
        self
    }

    // One slot, in which the bridge writes a bit.
    #[tactic(auto, unfolding(crate::specs::Line::slot))]
    pub fn slot(self, speed: u32, write: bool) -> Slotted<Line>
        ensures { (result.level ≡ level speed write self) × (result.line ≡ slot speed write self) }
    {
        let level = self.level(speed, write);
        Slotted {
            level,
            line: self.taken(speed, level),
        }
    }

    // Every probe is reset at this speed.
    fn reset_each(&mut self, speed: u32)
        ensures { self.new ≡ after_reset speed self.old }
    {
        let n = self.entries();
        for p in &mut self.probes[..n] {
            *p = p.reset(speed);
        }
    }

    // The line after a 1-Wire reset at this speed.
    pub fn reset(mut self, speed: u32) -> Line
        ensures { result ≡ after_reset speed self }
    {
        self.reset_each(speed);
        self
    }

    fn is_fitted(self, id: u64) -> bool
        ensures { result ≡ is_fitted id self }
    {
        self.fitted().iter().any(|p| id == p.id)
    }

    #[tactic(auto, unfolding(crate::specs::Line::with_probe))]
    fn with_probe(mut self, id: u64) -> Line
        requires { self.count < 64 }
        ensures { result ≡ with_probe id self }
    {
        self.probes[self.count] = Probe::newly_fitted(id);
        self.count += 1;
        self
    }

    // The line with one probe more: the ID by itself is checked first, then whether it is there already, then whether there is room.
    #[tactic(auto, unfolding(crate::specs::Line::fit_number, crate::specs::Line::place_number, crate::specs::Line::after_fit))]
    pub fn fit(self, id: &[u8; 8]) -> Result<Line, Refusal>
        ensures number_value { number_in result ≡ fit_number id.now self }
        ensures line_value { line_in self result ≡ after_fit id.now self }
    {
        let id = identity::admitted(id)?;
        if self.is_fitted(id) {
            return Err(Refusal::Fitted);
        }
        if MOST <= self.count {
            return Err(Refusal::Full);
        }
        Ok(self.with_probe(id))
    }
}
