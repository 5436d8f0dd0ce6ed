// Time passing where a chip may have a part in it: the slots of each 1-Wire command.
ghost use Rattle.std.specs.Prelude.{◌≡◌};
ghost use Rattle.station.specs.Station.{station_of, wire_of, finished_reset_on, finished_bit_on, finished_write_on};
ghost use Rattle.station.specs.Station.{finished_read_on, finished_triplet_on, after_time_on, slots_in, is_reset, is_quiet};

use crate::Station;
use bridge::{Bridge, Pending, Registers};
use wire::Wire;

// How many slots a command has.
#[tactic(auto, unfolding(crate::specs::Station::slots_in))]
fn slots_in(pending: Pending) -> u8
    ensures { result ≡ slots_in pending }
{
    match pending {
        Pending::Nothing | Pending::Reset => 0,
        Pending::SingleBit { .. } => 1,
        Pending::WriteByte { .. } | Pending::ReadByte => 8,
        Pending::Triplet { .. } => 3,
    }
}

fn is_reset(pending: Pending) -> bool
    ensures { result ≡ is_reset pending }
{
    matches!(pending, Pending::Reset)
}

impl Station {
    // The station with these registers, and with this line and these chips.
    fn of(registers: Registers, wire: Wire) -> Station
        ensures { result ≡ station_of registers wire }
    {
        let line = wire.line;
        Station {
            bridge: Bridge { registers, line },
            chips: wire.chips,
        }
    }

    // Its line and its chips.
    pub(crate) fn wire(&self) -> Wire
        ensures { result ≡ wire_of self.now }
    {
        Wire {
            line: self.bridge.line,
            chips: self.chips,
        }
    }

    // As it is: what the bridge's commands share with these is `Registers::finished`; the rest is a line there and a wire here.
    #[tactic(auto, unfolding(crate::specs::Station::finished_reset_on))]
    fn finished_reset(self) -> Station
        ensures { result ≡ finished_reset_on self }
    {
        let registers = self.bridge.registers;
        let wire = self.wire();
        let speed = registers.speed();
        let mut status = registers.status;
        status.ppd = wire.line.present(speed);
        let after = Wire {
            line: wire.line.reset(speed),
            chips: wire.emptied(speed),
        };
        Station::of(registers.finished(status, registers.readout), after)
    }

    #[tactic(auto, unfolding(crate::specs::Station::finished_bit_on))]
    fn finished_bit(self, bit: bool) -> Station
        ensures { result ≡ finished_bit_on bit self }
    {
        let registers = self.bridge.registers;
        let slotted = self.wire().slot(registers.speed(), bit);
        let mut status = registers.status;
        status.sbr = slotted.level;
        Station::of(registers.finished(status, registers.readout), slotted.line)
    }

    // As it is: one function with `finished_read` would have to ask what is pending; the bridge's does, to copy less.
    #[tactic(auto, unfolding(crate::specs::Station::finished_write_on))]
    fn finished_write(self, byte: u8) -> Station
        ensures { result ≡ finished_write_on byte self }
    {
        let registers = self.bridge.registers;
        let eight = self.wire().slots(registers.speed(), byte);
        Station::of(
            registers.finished(registers.status, registers.readout),
            eight.line,
        )
    }

    #[tactic(auto, unfolding(crate::specs::Station::finished_read_on))]
    fn finished_read(self) -> Station
        ensures { result ≡ finished_read_on self }
    {
        let registers = self.bridge.registers;
        let eight = self.wire().slots(registers.speed(), 0xFF);
        Station::of(registers.finished(registers.status, eight.byte), eight.line)
    }

    #[tactic(auto, unfolding(crate::specs::Station::finished_triplet_on))]
    fn finished_triplet(self, direction: bool) -> Station
        ensures { result ≡ finished_triplet_on direction self }
    {
        let registers = self.bridge.registers;
        let three = self.wire().triplet(registers.speed(), direction);
        let mut status = registers.status;
        status.dir = three.bit;
        status.tsb = three.second;
        status.sbr = three.first;
        Station::of(registers.finished(status, registers.readout), three.line)
    }

    // Time passes: what is pending has its effect.
    #[tactic(auto, unfolding(crate::specs::Station::after_time_on, crate::specs::Station::finished_on))]
    pub fn wait(self) -> Station
        ensures { result ≡ after_time_on self }
    {
        // As it is: what is pending says which step is taken, and no caller hands one in.
        match self.bridge.registers.pending {
            Pending::Nothing => self,
            Pending::Reset => self.finished_reset(),
            Pending::SingleBit { bit } => self.finished_bit(bit),
            Pending::WriteByte { byte } => self.finished_write(byte),
            Pending::ReadByte => self.finished_read(),
            Pending::Triplet { direction } => self.finished_triplet(direction),
        }
    }

    // No chip has a part in what is pending: none is fitted, or the command has slots, and no chip is selected before any of them. Time
    // passing is then the bridge's alone.
    #[tactic(auto, unfolding(crate::specs::Station::is_quiet))]
    pub fn quiet(self) -> bool
        ensures { result ≡ is_quiet self }
    {
        let pending = self.bridge.registers.pending;
        self.chips.count == 0
            || !is_reset(pending)
                && wire::chips_calm(&self.bridge.line, &self.chips, slots_in(pending))
    }
}
