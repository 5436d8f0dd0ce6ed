// A probe of the second kind once it is selected: a DS28E17 with one sensor (document 02, R-7).
//
// From the slot after it is selected it gathers bytes, low bit first, in the three packet forms. When the last bit of the CRC is taken, the
// sensor has done what was asked, and the chip answers: two poll slots, a status, a write status, and the bytes read. A probe of the old
// kind is none of these.
//
// Worked example: the chip of address 20h whose register 0 holds 5Ah takes 87 41 01 and their CRC, and sends 1, 0, the bits of 00h and the
// bits of 5Ah.
#![tactic(auto)]

mod form;
mod registers;

ghost use Rattle.std.specs.Prelude.{◌≡◌};
ghost use Rattle.chip.specs.Chip.{no_packet, none, new_chip, with_packet, emptied, status_for, sensor_for, whole, took_byte};
ghost use Rattle.chip.specs.Chip.{gathered, sends, behind_answer, answered, heard, is_over};

use form::next_at;

// The address that stands for a probe of the old kind: those of chips are below it.
// As it is: the definitions `none` and `is_chip` name 128, and the line's table holds a chip at each place (fixed memory).
pub const NO_ADDRESS: u8 = 128;

#[derive(Clone, Copy)]
pub struct Sensor {
    pub pointer: u8,
    pub registers: [u8; 16],
}

// What comes next: a byte of the packet, or a slot of the answer.
#[derive(Clone, Copy)]
pub enum Place {
    Code,
    Address,
    // L, or R of 87h.
    Count,
    // The first data byte, and the later ones.
    First,
    Later,
    // R of 2Dh.
    Reads,
    // The CRC's low byte, and its high byte.
    Seal,
    SealEnd { low: u8 },
    // A slot of the answer that has this status.
    Answering { status: u8, slot: u16 },
    // Behind a status other than 0.
    Silent,
    // The chip is deaf.
    Over,
}

// What a packet has asked so far: its code and address byte, how many data bytes are still to come and how many are to be read, the CRC of
// the bytes so far, and what the sensor is meant to be.
// As it is: `code` is the byte that came, by which the definitions `took_count` and `write_status` tell the form.
#[derive(Clone, Copy)]
pub struct Asked {
    pub code: u8,
    pub address: u8,
    pub left: u8,
    pub reads: u8,
    pub crc: u16,
    pub meant: Sensor,
}

// A packet under way: so many bits of the byte that comes next, which make up this much of it.
#[derive(Clone, Copy)]
pub struct Packet {
    pub place: Place,
    pub bits: u8,
    pub byte: u8,
    pub asked: Asked,
}

#[derive(Clone, Copy)]
pub struct Chip {
    pub address: u8,
    pub sensor: Sensor,
    pub packet: Packet,
}

// Nothing has been gathered: the sensor is meant to stay as it is.
fn no_packet(sensor: Sensor) -> Packet
    ensures { result ≡ no_packet sensor }
{
    next_at(
        Place::Code,
        Asked {
            code: 0,
            address: 0,
            left: 0,
            reads: 0,
            crc: 0,
            meant: sensor,
        },
    )
}

// Bit 0: the CRC is wrong. Bit 1: the address is not acknowledged.
// As it is: the status is a byte that the chip sends (document 02, R-7), so an enum would be turned into this number at once.
#[tactic(auto, unfolding(crate::specs::Chip::status_for))]
fn status_for(right: bool, addressed: bool) -> u8
    ensures { result ≡ status_for right addressed }
{
    if right {
        if addressed { 0 } else { 2 }
    } else {
        1
    }
}

// What the sensor is behind a packet that was answered with this status.
#[tactic(auto, unfolding(crate::specs::Chip::sensor_for))]
fn sensor_for(status: u8, asked: Asked, before: Sensor) -> Sensor
    ensures { result ≡ sensor_for status asked before }
{
    if status == 0 {
        asked.meant.stepped(asked.reads)
    } else {
        before
    }
}

// What comes behind the answer.
fn behind_answer(status: u8) -> Place
    ensures { result ≡ behind_answer status }
{
    if status == 0 {
        Place::Over
    } else {
        Place::Silent
    }
}

impl Chip {
    // What stands for a probe of the old kind.
    #[tactic(auto, unfolding(crate::specs::Chip::none, crate::specs::Chip::new_chip))]
    pub fn none() -> Chip
        ensures { result ≡ none }
    {
        Chip::newly_fitted(NO_ADDRESS)
    }

    // A chip at fitting: its registers and its pointer are zero.
    #[tactic(auto, unfolding(crate::specs::Chip::new_chip))]
    pub fn newly_fitted(address: u8) -> Chip
        ensures { result ≡ new_chip address }
    {
        let sensor = Sensor::zeroed();
        Chip {
            address,
            sensor,
            packet: no_packet(sensor),
        }
    }

    fn with_packet(mut self, packet: Packet) -> Chip
        ensures { result ≡ with_packet packet self }
    {
        self.packet = packet;
        self
    }

    // The chip after a 1-Wire reset that reaches it.
    #[tactic(auto, unfolding(crate::specs::Chip::emptied))]
    pub fn emptied(self) -> Chip
        ensures { result ≡ emptied self }
    {
        self.with_packet(no_packet(self.sensor))
    }

    // The last bit of the CRC is taken: the stores and steps are done, and the chip answers from the next slot on.
    #[tactic(auto, unfolding(crate::specs::Chip::whole))]
    fn whole(self, low: u8, high: u8) -> Chip
        ensures { result ≡ whole low high self }
    {
        let asked = self.packet.asked;
        let status = status_for(asked.crc_right(low, high), asked.addressed(self.address));
        Chip {
            sensor: sensor_for(status, asked, self.sensor),
            packet: next_at(Place::Answering { status, slot: 0 }, asked),
            ..self
        }
    }

    // A byte of the packet is whole.
    // As it is: the place says which step is taken, and no caller hands one in; so in `heard`.
    #[tactic(auto, unfolding(crate::specs::Chip::took_byte, crate::specs::Chip::took_at))]
    fn took_byte(self, x: u8) -> Chip
        ensures { result ≡ took_byte x self }
    {
        let asked = self.packet.asked;
        match self.packet.place {
            Place::Code => self.with_packet(asked.counted(x).took_code(x)),
            Place::Address => self.with_packet(asked.counted(x).took_address(x)),
            Place::Count => self.with_packet(asked.counted(x).took_count(x)),
            Place::First => self.with_packet(asked.counted(x).took_data(asked.meant.pointed_to(x))),
            Place::Later => self.with_packet(asked.counted(x).took_data(asked.meant.stored_one(x))),
            Place::Reads => self.with_packet(asked.counted(x).took_reads(x)),
            Place::Seal => self.with_packet(next_at(Place::SealEnd { low: x }, asked)),
            Place::SealEnd { low } => self.whole(low, x),
            Place::Answering { .. } | Place::Silent | Place::Over => self,
        }
    }

    // One level more of the packet. The eighth makes a byte whole.
    #[tactic(auto, unfolding(crate::specs::Chip::gathered))]
    fn gathered(self, level: bool) -> Chip
        ensures { result ≡ gathered level self }
    {
        let mut packet = self.packet;
        let byte = byte::with_level(packet.byte, level);
        if 7 <= packet.bits {
            return self.took_byte(byte);
        }
        packet.bits += 1;
        packet.byte = byte;
        self.with_packet(packet)
    }

    // What the chip lets the line be in a slot that it listens to: false where it sends 0, true where it sends 1 or nothing.
    #[tactic(auto, unfolding(crate::specs::Chip::sends, crate::specs::Chip::sends_in))]
    pub fn sends(self) -> bool
        ensures { result ≡ sends self }
    {
        match self.packet.place {
            Place::Answering { status, slot } => self.packet.asked.sends(status, slot),
            _ => true,
        }
    }

    // A slot of the answer has passed.
    #[tactic(auto, unfolding(crate::specs::Chip::answered))]
    fn answered(self, status: u8, slot: u16) -> Chip
        ensures { result ≡ answered status slot self }
    {
        let asked = self.packet.asked;
        if slot < asked.slots(status) - 1 {
            let place = Place::Answering {
                status,
                slot: slot + 1,
            };
            return self.with_packet(next_at(place, asked));
        }
        self.with_packet(next_at(behind_answer(status), asked))
    }

    // The chip after a slot of this level that it listened to.
    #[tactic(auto, unfolding(crate::specs::Chip::heard, crate::specs::Chip::heard_in))]
    pub fn heard(self, level: bool) -> Chip
        ensures { result ≡ heard level self }
    {
        match self.packet.place {
            Place::Answering { status, slot } => self.answered(status, slot),
            Place::Silent | Place::Over => self,
            _ => self.gathered(level),
        }
    }

    // The packet was none, or the answer is over: the chip is deaf.
    #[tactic(auto, unfolding(crate::specs::Chip::is_over, crate::specs::Chip::over_at))]
    pub fn over(self) -> bool
        ensures { result ≡ is_over self }
    {
        matches!(self.packet.place, Place::Over)
    }
}
