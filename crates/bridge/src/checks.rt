// The checks of a write, in their order: no bytes at all, unknown code, busy, wrong number of bytes, bad parameter.
ghost use Rattle.std.specs.Prelude.{◌≡◌, cond, true, false};
ghost use Rattle.bridge.specs.Bridge.{is_pending, wanted_of, taken_while_busy, pointed_by, good_configuration, good_parameter, number_in, write_number};

use crate::{Bridge, Pending, Pointer, Refusal, Registers};

// How many bytes the command has in all.
#[tactic(auto, unfolding(crate::specs::Bridge::bytes_of))]
fn bytes_of(code: u8) -> Result<usize, Refusal>
    ensures { result ≡ wanted_of code }
{
    match code {
        Bridge::DEVICE_RESET | Bridge::ONE_WIRE_RESET | Bridge::READ_BYTE => Ok(1),
        Bridge::SET_READ_POINTER
        | Bridge::WRITE_CONFIGURATION
        | Bridge::SINGLE_BIT
        | Bridge::WRITE_BYTE
        | Bridge::TRIPLET => Ok(2),
        _ => Err(Refusal::Unknown),
    }
}

#[tactic(auto, unfolding(crate::specs::Bridge::taken_while_busy))]
fn taken_while_busy(code: u8) -> bool
    ensures { result ≡ taken_while_busy code }
{
    matches!(code, Bridge::DEVICE_RESET | Bridge::SET_READ_POINTER)
}

// The register that a pointer code names.
// As it is: `TryFrom` would need an error type that no one reads; the definition `pointed_by` gives an Option.
#[tactic(auto, unfolding(crate::specs::Bridge::good_pointer, crate::specs::Bridge::pointer_of))]
pub(crate) fn pointed(x: u8) -> Option<Pointer>
    ensures { result ≡ pointed_by x }
{
    match x {
        Bridge::POINTER_STATUS => Some(Pointer::Status),
        Bridge::POINTER_READ_DATA => Some(Pointer::ReadData),
        Bridge::POINTER_CONFIGURATION => Some(Pointer::Configuration),
        _ => None,
    }
}

// Bit 1 is 0, and the upper nibble is the complement of the lower one.
#[tactic(auto, unfolding(crate::specs::Bridge::good_configuration))]
fn good_configuration(x: u8) -> bool
    ensures { result ≡ good_configuration x }
{
    x / 2 % 2 == 0 && x / 16 + x % 16 == 15
}

#[tactic(auto, unfolding(crate::specs::Bridge::good_parameter))]
fn good_parameter(code: u8, x: u8) -> bool
    ensures { result ≡ good_parameter code x }
{
    match code {
        Bridge::SET_READ_POINTER => pointed(x).is_some(),
        Bridge::WRITE_CONFIGURATION => good_configuration(x),
        _ => true,
    }
}

impl Registers {
    // 1WB: a 1-Wire command is pending.
    pub(crate) fn busy(self) -> bool
        ensures { result ≡ is_pending self.pending }
    {
        !matches!(self.pending, Pending::Nothing)
    }

    // The bridge is busy and the command is one that has to wait.
    fn held_up(self, code: u8) -> bool
        ensures { result ≡ cond (is_pending self.pending) (cond (taken_while_busy code) false true) false }
    {
        self.busy() && !taken_while_busy(code)
    }
}

impl Bridge {
    #[tactic(auto, using(crate::proofs::Writes::numbers))]
    pub(crate) fn checked(self, bytes: &[u8]) -> Result<(), Refusal>
        ensures { number_in result ≡ write_number bytes.now self }
    {
        let Some(&code) = bytes.first() else {
            return Err(Refusal::Length);
        };
        let wanted = bytes_of(code)?;
        if self.registers.held_up(code) {
            return Err(Refusal::Busy);
        }
        if bytes.len() != wanted {
            return Err(Refusal::Length);
        }
        if good_parameter(code, byte::at(bytes, 1)) {
            Ok(())
        } else {
            Err(Refusal::Parameter)
        }
    }
}
