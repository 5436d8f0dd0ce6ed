// The strong pull-up and the probes, as the fields of the bridge have them.
use bridge::Bridge;
use probe::{Condition, OVERDRIVE, Probe, Slot};
use std::{fmt, io};

// A probe's condition.
#[derive(Clone, Copy)]
struct Doing(Condition);

impl fmt::Display for Doing {
    fn fmt<W: fmt::Write>(&self, f: &mut fmt::Formatter<W>) -> fmt::Result {
        match self.0 {
            Condition::Deaf => write!(f, "deaf"),
            Condition::Taking { count, .. } => write!(f, "taking a code, bits so far {count}"),
            Condition::Sending { bit } => write!(f, "sending bit {bit}"),
            Condition::Matching { bit, .. } => write!(f, "matching bit {bit}"),
            Condition::Searching { bit, slot } => {
                let slot = match slot {
                    Slot::First => "first",
                    Slot::Second => "second",
                    Slot::Third => "third",
                };
                write!(f, "searching bit {bit}, {slot} slot")
            }
            Condition::Selected => write!(f, "selected"),
        }
    }
}

// A probe, by its family code and the first byte of its serial number.
#[derive(Clone, Copy)]
struct Shown(Probe);

impl fmt::Display for Shown {
    fn fmt<W: fmt::Write>(&self, f: &mut fmt::Formatter<W>) -> fmt::Result {
        let p = self.0;
        let [family, serial, ..] = p.id.to_le_bytes();
        let fast = p.speed == OVERDRIVE;
        write!(f, "probe {family:02X}{serial:02X}: {}", Doing(p.condition))?;
        // One at overdrive that goes to standard speed where it differs matches because of 69.
        if fast && matches!(p.condition, Condition::Matching { fallback: true, .. }) {
            write!(f, " by 69")?;
        }
        if p.marked {
            write!(f, ", marked")?;
        }
        if fast {
            write!(f, ", overdrive")?;
        }
        Ok(())
    }
}

// The strong pull-up where it is on, since no register has it, and then the fitted probes in their places.
pub(crate) fn fields(rt: &impl Print, bridge: &Bridge) -> io::Result<()> {
    if bridge.registers.pullup {
        println!(rt; "pull-up on")?;
    }
    for p in bridge.line.probes.iter().take(bridge.line.count) {
        println!(rt; "{}", Shown(*p))?;
    }
    Ok(())
}
