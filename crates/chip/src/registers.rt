// The sensor: 16 registers, and a pointer to one of them that steps round.
ghost use Rattle.std.specs.Prelude.{◌≡◌, ◌+◌, ◌%◌, get_or};
ghost use Rattle.chip.specs.Sensor.{zeroed, pointed_to, stored_one, stepped};

use crate::Sensor;

impl Sensor {
    #[tactic(auto, unfolding(crate::specs::Sensor::zeroed))]
    pub(crate) fn zeroed() -> Sensor
        ensures { result ≡ zeroed }
    {
        Sensor {
            pointer: 0,
            registers: [0; 16],
        }
    }

    // The first byte of a write sets the pointer.
    pub(crate) fn pointed_to(mut self, x: u8) -> Sensor
        ensures { result ≡ pointed_to x self }
    {
        self.pointer = x % 16;
        self
    }

    // A later byte is stored, and the pointer steps.
    #[tactic(auto, unfolding(crate::specs::Sensor::stored_one))]
    pub(crate) fn stored_one(mut self, x: u8) -> Sensor
        ensures { result ≡ stored_one x self }
    {
        let at = (self.pointer % 16) as usize;
        self.registers[at] = x;
        self.pointer = (self.pointer % 16 + 1) % 16;
        self
    }

    // So many bytes have been read.
    #[tactic(auto, unfolding(crate::specs::Sensor::stepped))]
    pub(crate) fn stepped(mut self, n: u8) -> Sensor
        ensures { result ≡ stepped n self }
    {
        self.pointer = (self.pointer % 16 + n % 16) % 16;
        self
    }

    // The register that is n steps on.
    pub(crate) fn register(self, n: u16) -> u8
        ensures { result ≡ get_or self.registers ((self.pointer + n) % 16) 0 }
    {
        let at = ((self.pointer as u16 + n % 16) % 16) as usize;
        self.registers[at]
    }
}
