// Time passing: the slots of each 1-Wire command, and what a finished one leaves.
ghost use Rattle.std.specs.Prelude.{◌≡◌};
ghost use Rattle.bridge.specs.Bridge.{switches_on, pullup_after, finished as finished_with, finished_reset, finished_bit, finished_triplet};
ghost use Rattle.bridge.specs.Eight.{byte_of, read_data_of, finished_byte};

use crate::{Bridge, Pending, Registers, StatusBits, strong};

impl Registers {
    // What eight slots carry: the byte to write, or for Read Byte ones.
    fn byte(self) -> u8
        ensures { result ≡ byte_of self.pending }
    {
        match self.pending {
            Pending::WriteByte { byte } => byte,
            _ => 0xFF,
        }
    }

    // The read-data byte after eight slots of these levels: theirs, if the command reads.
    fn read_data(self, levels: u8) -> u8
        ensures { result ≡ read_data_of self.pending levels self.readout }
    {
        match self.pending {
            Pending::ReadByte => levels,
            _ => self.readout,
        }
    }

    // The command is one that is over with the pull-up on, where SPU is set.
    fn switches_on(self) -> bool
        ensures { result ≡ switches_on self.pending }
    {
        matches!(
            self.pending,
            Pending::SingleBit { .. } | Pending::WriteByte { .. }
        )
    }

    fn pullup_after(self) -> bool
        ensures { result ≡ pullup_after self }
    {
        self.pullup || self.switches_on() && strong(self.configuration)
    }

    // The command is over: nothing is pending.
    pub fn finished(mut self, status: StatusBits, readout: u8) -> Registers
        ensures { result ≡ finished_with status readout self }
    {
        self.status = status;
        self.readout = readout;
        self.pullup = self.pullup_after();
        self.pending = Pending::Nothing;
        self
    }
}

impl Bridge {
    #[tactic(auto, unfolding(crate::specs::Bridge::finished_reset))]
    pub(crate) fn finished_reset(self) -> Bridge
        ensures { result ≡ finished_reset self }
    {
        let registers = self.registers;
        let speed = registers.speed();
        let mut status = registers.status;
        status.ppd = self.line.present(speed);
        Bridge {
            registers: registers.finished(status, registers.readout),
            line: self.line.reset(speed),
        }
    }

    #[tactic(auto, unfolding(crate::specs::Bridge::finished_bit))]
    pub(crate) fn finished_bit(self, bit: bool) -> Bridge
        ensures { result ≡ finished_bit bit self }
    {
        let registers = self.registers;
        let slotted = self.line.slot(registers.speed(), bit);
        let mut status = registers.status;
        status.sbr = slotted.level;
        Bridge {
            registers: registers.finished(status, registers.readout),
            line: slotted.line,
        }
    }

    // Write Byte and Read Byte share their eight slots, so that the line is copied less.
    pub(crate) fn finished_byte(self) -> Bridge
        ensures { result ≡ finished_byte self.registers.pending self }
    {
        let registers = self.registers;
        let eight = byte_slots::slots(self.line, registers.speed(), registers.byte());
        let readout = registers.read_data(eight.byte);
        Bridge {
            registers: registers.finished(registers.status, readout),
            line: eight.line,
        }
    }

    #[tactic(auto, unfolding(crate::specs::Bridge::finished_triplet))]
    pub(crate) fn finished_triplet(self, direction: bool) -> Bridge
        ensures { result ≡ finished_triplet direction self }
    {
        let registers = self.registers;
        let three = triplet_slots::triplet(self.line, registers.speed(), direction);
        let mut status = registers.status;
        status.dir = three.bit;
        status.tsb = three.second;
        status.sbr = three.first;
        Bridge {
            registers: registers.finished(status, registers.readout),
            line: three.line,
        }
    }
}
