// The bridge: one DS2482-101 and the line behind it (document 01, "The bridge", and document 02, R-2, R-3 and R-12).
//
// A write is checked; one that is accepted has its effect; a 1-Wire command becomes pending and has its effect when time passes; a read
// gives the register under the read pointer. Bad input is refused by number and changes nothing.
//
// Worked example: at power-on the status reads 18h. The write B4h (1-Wire Reset) is accepted, with one probe fitted the status then reads
// 19h, and 1Ah after time has passed.
#![tactic(auto)]

mod checks;
mod commands;
mod time;

ghost use Rattle.std.specs.Prelude.{◌≡◌, ◌*◌, ◌≤◌};
ghost use Rattle.probe.specs.Probe.{digit};
ghost use Rattle.line.specs.Line.{number_returned as line_number, fit_number};
ghost use Rattle.withdrawal.specs.Withdrawal.{number_returned as withdrawal_number, withdraw_number};
ghost use Rattle.bridge.specs.Bridge.{power_on, speed_of, is_strong, status_of, read_of, number_of, number_in, number_by, bridge_in, write_number, after_write, after_time};
ghost use Rattle.bridge.specs.Bridge.{after_fitting, after_withdrawal};

use line::Line;

// Why a write is refused.
#[derive(Clone, Copy, PartialEq, Eq)]
pub enum Refusal {
    Unknown,
    Busy,
    Length,
    Parameter,
}

impl Refusal {
    // Its number in the table of document 01.
    pub fn number(self) -> u8
        ensures { result ≡ number_of self }
    {
        match self {
            Refusal::Unknown => 5,
            Refusal::Busy => 6,
            Refusal::Length => 7,
            Refusal::Parameter => 8,
        }
    }
}

// The register that a read gives.
#[derive(Clone, Copy)]
pub enum Pointer {
    Status,
    ReadData,
    Configuration,
}

// The 1-Wire command that waits for time to pass.
// As it is: with an Option of the five, each match over them has a Some round every arm, and none is shorter.
#[derive(Clone, Copy)]
pub enum Pending {
    Nothing,
    Reset,
    SingleBit { bit: bool },
    WriteByte { byte: u8 },
    ReadByte,
    Triplet { direction: bool },
}

// The five bits of the status register that change here; LL is always 1, SD always 0, and 1WB is whether a command is pending.
#[derive(Clone, Copy)]
pub struct StatusBits {
    pub dir: bool,
    pub tsb: bool,
    pub sbr: bool,
    pub rst: bool,
    pub ppd: bool,
}

#[derive(Clone, Copy)]
pub struct Registers {
    pub status: StatusBits,
    pub configuration: u8,
    pub pointer: Pointer,
    pub readout: u8,
    pub pending: Pending,
    // The strong pull-up is on.
    pub pullup: bool,
}

#[derive(Clone, Copy)]
pub struct Bridge {
    pub registers: Registers,
    pub line: Line,
}

// What a bit adds to a register where it stands for the weight.
fn weighed(bit: bool, weight: u8) -> u8
    ensures { (result ≡ digit bit * weight) × (result ≤ weight) }
{
    u8::from(bit) * weight
}

// SPU is set in a configuration.
fn strong(x: u8) -> bool
    ensures { result ≡ is_strong x }
{
    x / 4 % 2 == 1
}

impl Registers {
    // 1WS: the speed of slots and resets.
    // As it is: a slot takes its speed as a number (DECISIONS, ID-12).
    pub fn speed(self) -> u32
        ensures { result ≡ speed_of self }
    {
        u32::from(self.configuration / 8 % 2)
    }

    #[tactic(auto, unfolding(crate::specs::Bridge::status_of))]
    fn status(self) -> u8
        ensures { result ≡ status_of self }
    {
        let status = self.status;
        weighed(status.dir, 128)
            + weighed(status.tsb, 64)
            + weighed(status.sbr, 32)
            + weighed(status.rst, 16)
            + 8
            + weighed(status.ppd, 2)
            + weighed(self.busy(), 1)
    }
}

impl Bridge {
    // The command codes.
    // As it is: document 01 has the codes belong to the bridge as named constants (docs/FORMS.md), and a write carries any byte.
    pub const DEVICE_RESET: u8 = 0xF0;

    pub const SET_READ_POINTER: u8 = 0xE1;

    pub const WRITE_CONFIGURATION: u8 = 0xD2;

    pub const ONE_WIRE_RESET: u8 = 0xB4;

    pub const SINGLE_BIT: u8 = 0x87;

    pub const WRITE_BYTE: u8 = 0xA5;

    pub const READ_BYTE: u8 = 0x96;

    pub const TRIPLET: u8 = 0x78;

    // The pointer codes.
    pub const POINTER_STATUS: u8 = 0xF0;

    pub const POINTER_READ_DATA: u8 = 0xE1;

    pub const POINTER_CONFIGURATION: u8 = 0xC3;

    // The state at power-on: no probe is fitted and the status reads 18h.
    #[tactic(auto, unfolding(crate::specs::Bridge::power_on))]
    pub fn power_on() -> Bridge
        ensures { result ≡ power_on }
    {
        Bridge {
            registers: Registers::cleared(0),
            line: Line::bare(),
        }
    }

    // A write of any bytes. A refused one leaves the bridge as it was.
    #[tactic(auto, using(crate::proofs::Writes::writes))]
    pub fn write(mut self, bytes: &[u8]) -> Result<Bridge, Refusal>
        ensures number_value { number_in result ≡ write_number bytes.now self }
        ensures bridge_value { bridge_in self result ≡ after_write bytes.now self }
    {
        self.checked(bytes)?;
        let (code, parameter) = (byte::at(bytes, 0), byte::at(bytes, 1));
        self.registers = self.registers.accepted(code, parameter);
        Ok(self)
    }

    // What a read gives. It changes nothing.
    #[tactic(auto, unfolding(crate::specs::Bridge::read_of))]
    pub fn read(self) -> u8
        ensures { result ≡ read_of self }
    {
        let registers = self.registers;
        match registers.pointer {
            Pointer::Status => registers.status(),
            Pointer::ReadData => registers.readout,
            Pointer::Configuration => registers.configuration % 16,
        }
    }

    // Time passes: what is pending has its effect.
    // As it is: what is pending says which step is taken, and no caller hands one in.
    #[tactic(auto, using(crate::proofs::Eight::time_of_byte), unfolding(crate::specs::Bridge::after_time, crate::specs::Bridge::finished_of))]
    pub fn wait(self) -> Bridge
        ensures { result ≡ after_time self }
    {
        match self.registers.pending {
            Pending::Nothing => self,
            Pending::Reset => self.finished_reset(),
            Pending::SingleBit { bit } => self.finished_bit(bit),
            Pending::WriteByte { byte: _ } | Pending::ReadByte => self.finished_byte(),
            Pending::Triplet { direction } => self.finished_triplet(direction),
        }
    }

    // A probe is fitted, deaf and unmarked. A refused one leaves the bridge as it was. That a command is pending does not matter.
    #[tactic(auto, unfolding(crate::specs::Bridge::after_fitting))]
    pub fn fit(mut self, id: &[u8; 8]) -> Result<Bridge, line::Refusal>
        ensures number_value { number_by line_number result ≡ fit_number id.now self.line }
        ensures bridge_value { bridge_in self result ≡ after_fitting id.now self }
    {
        self.line = self.line.fit(id)?;
        Ok(self)
    }

    // A probe is withdrawn, whatever it was doing. A refused one leaves the bridge as it was. What is pending stays, and will find the line
    // without the probe.
    #[tactic(auto, unfolding(crate::specs::Bridge::after_withdrawal))]
    pub fn withdraw(mut self, id: &[u8; 8]) -> Result<Bridge, withdrawal::Refusal>
        ensures number_value { number_by withdrawal_number result ≡ withdraw_number id.now self.line }
        ensures bridge_value { bridge_in self result ≡ after_withdrawal id.now self }
    {
        self.line = withdrawal::withdraw(self.line, id)?;
        Ok(self)
    }
}
