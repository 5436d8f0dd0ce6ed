// The bytes of a packet, one place after the other, and the answer to what they asked.
ghost use Rattle.std.specs.Prelude.{◌≡◌, ◌++◌, get_or};
ghost use Rattle.chip.specs.Sensor.{read_from};
ghost use Rattle.chip.specs.Chip.{next_at, took_code, took_address, took_reads, took_length, took_count};
ghost use Rattle.chip.specs.Chip.{behind_data, took_data, counted, crc_right, is_addressed, write_status, answer_of, sends_answer, slots_of};

use crate::{Asked, Packet, Place, Sensor};
use checksum::{TAPS16, entered};
use packet::{READ, WRITE, WRITE_READ};

// A byte that is all ones, which is what a chip sends that sends nothing.
const ONES: u8 = 255;

// No bit of the byte at a place has come yet.
pub(crate) fn next_at(place: Place, asked: Asked) -> Packet
    ensures { result ≡ next_at place asked }
{
    Packet {
        place,
        bits: 0,
        byte: 0,
        asked,
    }
}

impl Asked {
    // The CRC goes on over a byte.
    #[tactic(auto, unfolding(checksum::specs::Register::taps16, checksum::specs::Register::taps))]
    pub(crate) fn counted(mut self, x: u8) -> Asked
        ensures { result ≡ counted x self }
    {
        self.crc = entered::<TAPS16>(self.crc, x);
        self
    }

    #[tactic(auto, unfolding(crate::specs::Chip::took_code))]
    pub(crate) fn took_code(mut self, x: u8) -> Packet
        ensures { result ≡ took_code x self }
    {
        match x {
            WRITE | READ | WRITE_READ => {
                self.code = x;
                next_at(Place::Address, self)
            }
            _ => next_at(Place::Over, self),
        }
    }

    #[tactic(auto, unfolding(crate::specs::Chip::took_address))]
    pub(crate) fn took_address(mut self, x: u8) -> Packet
        ensures { result ≡ took_address x self }
    {
        self.address = x;
        next_at(Place::Count, self)
    }

    #[tactic(auto, unfolding(crate::specs::Chip::took_reads))]
    pub(crate) fn took_reads(mut self, x: u8) -> Packet
        ensures { result ≡ took_reads x self }
    {
        if x == 0 {
            return next_at(Place::Over, self);
        }
        self.reads = x;
        next_at(Place::Seal, self)
    }

    // As it is: it sets another field than `took_reads` and goes to another place; one for both would take both.
    #[tactic(auto, unfolding(crate::specs::Chip::took_length))]
    fn took_length(mut self, x: u8) -> Packet
        ensures { result ≡ took_length x self }
    {
        if x == 0 {
            return next_at(Place::Over, self);
        }
        self.left = x;
        next_at(Place::First, self)
    }

    #[tactic(auto, unfolding(crate::specs::Chip::took_count))]
    pub(crate) fn took_count(self, x: u8) -> Packet
        ensures { result ≡ took_count x self }
    {
        if self.code == READ {
            self.took_reads(x)
        } else {
            self.took_length(x)
        }
    }

    fn behind_data(self) -> Place
        ensures { result ≡ behind_data self }
    {
        if self.code == WRITE_READ {
            Place::Reads
        } else {
            Place::Seal
        }
    }

    // A data byte, by which the sensor is meant to be another.
    #[tactic(auto, unfolding(crate::specs::Chip::took_data))]
    pub(crate) fn took_data(mut self, meant: Sensor) -> Packet
        ensures { result ≡ took_data meant self }
    {
        self.meant = meant;
        if self.left <= 1 {
            self.left = 0;
            next_at(self.behind_data(), self)
        } else {
            self.left -= 1;
            next_at(Place::Later, self)
        }
    }

    // The CRC as it is sent: inverted, low byte first.
    pub(crate) fn crc_right(self, low: u8, high: u8) -> bool
        ensures { result ≡ crc_right low high self }
    {
        u16::from_le_bytes([low, high]) == 65535 - self.crc
    }

    // The address byte is that of the chip with this address, its low bit included.
    pub(crate) fn addressed(self, address: u8) -> bool
        ensures { result ≡ is_addressed address self }
    {
        let wanted = address as u16 * 2;
        if self.code == READ {
            self.address as u16 == wanted + 1
        } else {
            self.address as u16 == wanted
        }
    }

    // ---- the answer

    // The n-th of the bytes read.
    #[tactic(auto, using(crate::proofs::Reading::read_at, crate::proofs::Reading::read_behind))]
    fn byte_read(self, n: u16) -> u8
        ensures { result ≡ get_or (read_from self.reads self.meant) n 255 }
    {
        if n < self.reads as u16 {
            self.meant.register(n)
        } else {
            ONES
        }
    }

    // The n-th byte behind a status of 0.
    fn behind_status(self, n: u16) -> u8
        ensures { result ≡ get_or (write_status self.code ++ read_from self.reads self.meant) n 255 }
    {
        if self.code == READ {
            return self.byte_read(n);
        }
        if n == 0 { 0 } else { self.byte_read(n - 1) }
    }

    // The n-th byte of the answer; behind the answer come ones.
    #[tactic(auto, using(crate::proofs::Reading::behind_first), unfolding(crate::specs::Chip::answer_of))]
    fn answer_byte(self, status: u8, n: u16) -> u8
        ensures { result ≡ get_or (answer_of status self) n 255 }
    {
        if n == 0 {
            return status;
        }
        if status == 0 {
            self.behind_status(n - 1)
        } else {
            ONES
        }
    }

    // What is sent in a slot of the answer: 1 and 0 in the poll slots, then the bits of the bytes.
    #[tactic(auto, unfolding(crate::specs::Chip::sends_answer))]
    pub(crate) fn sends(self, status: u8, slot: u16) -> bool
        ensures { result ≡ sends_answer status slot self }
    {
        if slot == 0 {
            return true;
        }
        if slot == 1 {
            return false;
        }
        let byte = self.answer_byte(status, (slot - 2) / 8);
        identity::bit(byte as u64, ((slot - 2) % 8) as u8)
    }

    // How many slots the answer takes.
    #[tactic(auto, using(crate::proofs::Reading::length_read), unfolding(crate::specs::Chip::answer_of))]
    pub(crate) fn slots(self, status: u8) -> u16
        ensures { result ≡ slots_of status self }
    {
        if status != 0 {
            return 10;
        }
        if self.code == READ {
            10 + 8 * self.reads as u16
        } else {
            18 + 8 * self.reads as u16
        }
    }
}
