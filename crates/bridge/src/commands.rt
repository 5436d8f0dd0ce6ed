// The commands as they are accepted: what each does at once.
ghost use Rattle.std.specs.Prelude.{◌≡◌};
ghost use Rattle.bridge.specs.Bridge.{cleared as cleared_but, set_pointer, configured as configured_to};
ghost use Rattle.bridge.specs.Bridge.{pullup_under, kept_configuration, pended as pended_of, top_bit, accepted as accepted_as};

use crate::checks::pointed;
use crate::{Bridge, Pending, Pointer, Registers, StatusBits, strong};

fn top_bit(x: u8) -> bool
    ensures { result ≡ top_bit x }
{
    x / 128 % 2 == 1
}

impl Registers {
    pub(crate) fn cleared(readout: u8) -> Registers
        ensures { result ≡ cleared_but readout }
    {
        let status = StatusBits {
            dir: false,
            tsb: false,
            sbr: false,
            rst: true,
            ppd: false,
        };
        Registers {
            status,
            configuration: 0,
            pointer: Pointer::Status,
            readout,
            pending: Pending::Nothing,
            pullup: false,
        }
    }

    // A code that names no register has been refused.
    #[tactic(auto, unfolding(crate::specs::Bridge::good_pointer, crate::specs::Bridge::pointer_of))]
    fn set_pointer(mut self, x: u8) -> Registers
        ensures { result ≡ set_pointer x self }
    {
        self.pointer = pointed(x).unwrap_or(Pointer::Configuration);
        self
    }

    // Whether the pull-up is on under a new configuration: SPU 0 ends it.
    fn pullup_under(self, x: u8) -> bool
        ensures { result ≡ pullup_under x self }
    {
        strong(x) && self.pullup
    }

    fn configured(mut self, x: u8) -> Registers
        ensures { result ≡ configured_to x self }
    {
        self.status.rst = false;
        self.pullup = self.pullup_under(x);
        self.configuration = x % 16;
        self.pointer = Pointer::Configuration;
        self
    }

    // The pull-up ends, and SPU is cleared with it. Where it is not on, SPU is what the command will switch on.
    fn kept_configuration(self) -> u8
        ensures { result ≡ kept_configuration self }
    {
        if self.pullup {
            self.configuration / 8 * 8 + self.configuration % 4
        } else {
            self.configuration
        }
    }

    fn pended(mut self, pending: Pending) -> Registers
        ensures { result ≡ pended_of pending self }
    {
        self.configuration = self.kept_configuration();
        self.pointer = Pointer::Status;
        self.pending = pending;
        self.pullup = false;
        self
    }

    // Every code that is not named here is that of the triplet: an unknown one has been refused.
    // As it is: the definition `accepted` takes a write's bytes, so an enum of commands would repeat the codes and be turned back.
    #[tactic(auto, unfolding(crate::specs::Bridge::accepted))]
    pub(crate) fn accepted(self, code: u8, x: u8) -> Registers
        ensures { result ≡ accepted_as code x self }
    {
        match code {
            Bridge::DEVICE_RESET => Registers::cleared(self.readout),
            Bridge::SET_READ_POINTER => self.set_pointer(x),
            Bridge::WRITE_CONFIGURATION => self.configured(x),
            Bridge::ONE_WIRE_RESET => self.pended(Pending::Reset),
            Bridge::SINGLE_BIT => self.pended(Pending::SingleBit { bit: top_bit(x) }),
            Bridge::WRITE_BYTE => self.pended(Pending::WriteByte { byte: x }),
            Bridge::READ_BYTE => self.pended(Pending::ReadByte),
            _ => self.pended(Pending::Triplet {
                direction: top_bit(x),
            }),
        }
    }
}
