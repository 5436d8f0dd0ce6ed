// One probe on the line (document 01, "The probes", and document 02, R-2).
//
// A probe is in exactly one of six conditions. In each slot that reaches it, it may send, and then takes the level of the line; a 1-Wire
// reset makes it take a ROM command. It keeps a mark: Read, Match, Search and Skip ROM clear it, those of overdrive too, a match or a
// search that ends at the probe sets it, and Resume asks for it. It has a speed, and slots at the other speed do not reach it.
//
// Worked example: a probe that has taken seven bits of CCh and takes a last 1 is selected.
#![tactic(auto)]

ghost use Rattle.std.specs.Prelude.{◌≡◌};
ghost use Rattle.probe.specs.declared.Condition.TheVariants.{Matching};
ghost use Rattle.probe.specs.Probe.{deaf_new, in_condition, with_mark, reaches, sends_searching, sends, resumed};
ghost use Rattle.probe.specs.Probe.{overdrive, at_speed, obeyed, differed, reset, agrees};
ghost use Rattle.probe.specs.Probe.{took_code, took_sending, took_matching, took_searching, took, rests};

// The ROM commands.
// As it is: bytes that come off the line: `obeyed` takes any byte, so an enum would ask more of its callers.
pub const READ_ROM: u8 = 0x33;

pub const MATCH_ROM: u8 = 0x55;

pub const SEARCH_ROM: u8 = 0xF0;

pub const SKIP_ROM: u8 = 0xCC;

pub const OVERDRIVE_SKIP_ROM: u8 = 0x3C;

pub const OVERDRIVE_MATCH_ROM: u8 = 0x69;

pub const RESUME: u8 = 0xA5;

// The number of an ID's last bit, and of a code's.
pub const LAST_BIT: u8 = 63;

const LAST_CODE_BIT: u8 = 7;

// The speed of a probe, or of the bridge: the configuration's bit 1WS. It is as wide as the room beside a probe's condition, so that a
// copied probe has no gaps.
// As it is: slots and resets take any number for a speed, so an enum would ask more of the callers of `Line::slot` and the others.
pub const STANDARD: u32 = 0;

pub const OVERDRIVE: u32 = 1;

// Which of the three slots of a search bit comes next.
#[derive(Clone, Copy)]
pub enum Slot {
    // It sends the bit.
    First,
    // It sends the bit's complement.
    Second,
    // It takes the level.
    Third,
}

#[derive(Clone, Copy)]
pub enum Condition {
    Deaf,
    // Taking a ROM command: so many bits so far, which make up this much of the code.
    Taking { count: u8, code: u8 },
    // Sending its ID, at this bit.
    Sending { bit: u8 },
    // Matching its ID with the line, at this bit. By 69h it falls back to standard speed if it differs.
    Matching { bit: u8, fallback: bool },
    // Searching, at this bit and in this slot of it.
    Searching { bit: u8, slot: Slot },
    Selected,
}

// What a probe is in once it has taken Search ROM.
pub const SEARCHING: Condition = Condition::Searching {
    bit: 0,
    slot: Slot::First,
};

#[derive(Clone, Copy)]
pub struct Probe {
    pub id: u64,
    pub marked: bool,
    pub condition: Condition,
    // As it is: an enum took four instructions a probe in place of two, and left gaps that each copy filled (DECISIONS, ID-12).
    pub speed: u32,
}

// What a probe is in once it has taken a command to match its ID.
fn matching(fallback: bool) -> Condition
    ensures { result ≡ Matching 0 fallback }
{
    Condition::Matching { bit: 0, fallback }
}

// What Resume makes of a probe with this mark.
#[tactic(auto, unfolding(crate::specs::Probe::resumed))]
pub fn resumed(marked: bool) -> Condition
    ensures { result ≡ resumed marked }
{
    if marked {
        Condition::Selected
    } else {
        Condition::Deaf
    }
}

impl Probe {
    // A newly fitted probe is deaf, unmarked and at standard speed.
    pub fn newly_fitted(id: u64) -> Probe
        ensures { result ≡ deaf_new id }
    {
        Probe {
            id,
            marked: false,
            speed: STANDARD,
            condition: Condition::Deaf,
        }
    }

    // The probe in another condition, its mark as it was.
    pub fn in_condition(self, condition: Condition) -> Probe
        ensures { result ≡ in_condition self condition }
    {
        Probe { condition, ..self }
    }

    // The probe in another condition, its mark cleared or set.
    pub fn with_mark(self, marked: bool, condition: Condition) -> Probe
        ensures { result ≡ with_mark self marked condition }
    {
        Probe {
            marked,
            condition,
            ..self
        }
    }

    fn at_overdrive(self, marked: bool, condition: Condition) -> Probe
        ensures { result ≡ with_mark (at_speed overdrive self) marked condition }
    {
        Probe {
            speed: OVERDRIVE,
            ..self.with_mark(marked, condition)
        }
    }

    // Slots at this speed reach the probe.
    #[tactic(auto, unfolding(crate::specs::Probe::reaches))]
    pub fn reached(self, speed: u32) -> bool
        ensures { result ≡ reaches speed self }
    {
        speed == self.speed
    }

    // ---- what a probe sends

    #[tactic(auto, unfolding(crate::specs::Probe::sends_searching))]
    fn sends_searching(self, bit: u8, slot: Slot) -> bool
        ensures { result ≡ sends_searching self.id bit slot }
    {
        match slot {
            Slot::First => identity::bit(self.id, bit),
            Slot::Second => !identity::bit(self.id, bit),
            Slot::Third => true,
        }
    }

    // What the probe lets the line be in a slot that reaches it: false where it sends 0, true where it sends 1 or nothing.
    #[tactic(auto, unfolding(crate::specs::Probe::sends, crate::specs::Probe::sends_in))]
    pub fn sends(self) -> bool
        ensures { result ≡ sends self }
    {
        match self.condition {
            Condition::Sending { bit } => identity::bit(self.id, bit),
            Condition::Searching { bit, slot } => self.sends_searching(bit, slot),
            _ => true,
        }
    }

    // ---- what a probe becomes

    // The probe once a ROM command is whole.
    // As it is: the code is what came off the line, each byte has its meaning, and no caller hands a step in.
    #[tactic(auto, unfolding(crate::specs::Probe::obeyed))]
    pub fn obeyed(self, code: u8) -> Probe
        ensures { result ≡ obeyed code self }
    {
        match code {
            READ_ROM => self.with_mark(false, Condition::Sending { bit: 0 }),
            MATCH_ROM => self.with_mark(false, matching(false)),
            SEARCH_ROM => self.with_mark(false, SEARCHING),
            SKIP_ROM => self.with_mark(false, Condition::Selected),
            OVERDRIVE_SKIP_ROM => self.at_overdrive(false, Condition::Selected),
            OVERDRIVE_MATCH_ROM => self.at_overdrive(false, matching(true)),
            RESUME => self.in_condition(resumed(self.marked)),
            _ => self.in_condition(Condition::Deaf),
        }
    }

    #[tactic(auto, unfolding(crate::specs::Probe::took_code))]
    fn took_code(self, count: u8, code: u8, level: bool) -> Probe
        ensures { result ≡ took_code count code level self }
    {
        let code = byte::with_level(code, level);
        if LAST_CODE_BIT <= count {
            self.obeyed(code)
        } else {
            self.in_condition(Condition::Taking {
                count: count + 1,
                code,
            })
        }
    }

    // Whether a level is this bit of the ID.
    pub fn agrees(self, level: bool, bit: u8) -> bool
        ensures { result ≡ agrees level self.id bit }
    {
        identity::bit(self.id, bit) == level
    }

    #[tactic(auto, unfolding(crate::specs::Probe::took_sending))]
    fn took_sending(self, bit: u8) -> Probe
        ensures { result ≡ took_sending bit self }
    {
        if LAST_BIT <= bit {
            self.in_condition(Condition::Selected)
        } else {
            self.in_condition(Condition::Sending { bit: bit + 1 })
        }
    }

    // A probe that differs from the ID is deaf.
    pub fn differed(self, fallback: bool) -> Probe
        ensures { result ≡ differed fallback self }
    {
        if fallback {
            Probe {
                speed: STANDARD,
                condition: Condition::Deaf,
                ..self
            }
        } else {
            self.in_condition(Condition::Deaf)
        }
    }

    #[tactic(auto, unfolding(crate::specs::Probe::took_matching))]
    fn took_matching(self, bit: u8, fallback: bool, level: bool) -> Probe
        ensures { result ≡ took_matching bit fallback level self }
    {
        if self.agrees(level, bit) {
            if LAST_BIT <= bit {
                self.with_mark(true, Condition::Selected)
            } else {
                self.in_condition(Condition::Matching {
                    bit: bit + 1,
                    fallback,
                })
            }
        } else {
            self.differed(fallback)
        }
    }

    // The third slot of a search bit, for a probe that searches.
    // As it is: what it shares with `took_matching`, one function would take with the next condition made, and there `bit + 1` need not fit.
    #[tactic(auto, unfolding(crate::specs::Probe::took_searching))]
    fn took_third(self, bit: u8, level: bool) -> Probe
        ensures { result ≡ took_searching bit Slot.Third level self }
    {
        if self.agrees(level, bit) {
            if LAST_BIT <= bit {
                self.with_mark(true, Condition::Selected)
            } else {
                self.in_condition(Condition::Searching {
                    bit: bit + 1,
                    slot: Slot::First,
                })
            }
        } else {
            self.in_condition(Condition::Deaf)
        }
    }

    #[tactic(auto, unfolding(crate::specs::Probe::took_searching))]
    fn took_searching(self, bit: u8, slot: Slot, level: bool) -> Probe
        ensures { result ≡ took_searching bit slot level self }
    {
        match slot {
            Slot::First => self.in_condition(Condition::Searching {
                bit,
                slot: Slot::Second,
            }),
            Slot::Second => self.in_condition(Condition::Searching {
                bit,
                slot: Slot::Third,
            }),
            Slot::Third => self.took_third(bit, level),
        }
    }

    // No slot changes the probe, at whatever speed.
    #[tactic(auto, unfolding(crate::specs::Probe::rests, crate::specs::Probe::rests_in))]
    pub fn rests(self) -> bool
        ensures { result ≡ rests self }
    {
        matches!(self.condition, Condition::Deaf | Condition::Selected)
    }

    // The probe after a slot of this level that reaches it.
    // As it is: the condition, and the slot of a search, says which step is taken, and no caller hands one in; so in `took_searching`.
    #[tactic(auto, unfolding(crate::specs::Probe::took, crate::specs::Probe::took_in))]
    pub fn took(self, level: bool) -> Probe
        ensures { result ≡ took level self }
    {
        match self.condition {
            Condition::Deaf | Condition::Selected => self,
            Condition::Taking { count, code } => self.took_code(count, code, level),
            Condition::Sending { bit } => self.took_sending(bit),
            Condition::Matching { bit, fallback } => self.took_matching(bit, fallback, level),
            Condition::Searching { bit, slot } => self.took_searching(bit, slot, level),
        }
    }

    // The probe after a 1-Wire reset at this speed: taking a command, with no bits, if the reset reaches it.
    #[tactic(auto, unfolding(crate::specs::Probe::reset))]
    pub fn reset(self, speed: u32) -> Probe
        ensures { result ≡ reset speed self }
    {
        let taking = Condition::Taking { count: 0, code: 0 };
        if speed == STANDARD {
            Probe {
                speed: STANDARD,
                condition: taking,
                ..self
            }
        } else if self.reached(speed) {
            self.in_condition(taking)
        } else {
            self
        }
    }
}
