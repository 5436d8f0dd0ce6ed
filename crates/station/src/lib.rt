// The bridge and the chips on its line (document 02, R-7).
//
// A station is a bridge, whose line has probes of both kinds, and the chips that stand beside it. Writes, reads and the fitting of a probe
// of the old kind are the bridge's own calls. Here is what a chip has a part in: time passing, its fitting, and a withdrawal. Where no chip
// has a part in what is pending, which `quiet` tells, the bridge's own `wait` does the same and is quicker.
//
// Worked example: with a chip of address 20h fitted and selected, 87 41 01 BE 46 by Write Byte and then two Single Bits read its poll
// slots, 1 and 0; after them two Read Bytes give 00h and its register 0.
#![tactic(auto)]

mod fitting;
mod time;

ghost use Rattle.std.specs.Prelude.{◌≡◌};
ghost use Rattle.line.specs.Line.{of_identity};
ghost use Rattle.station.specs.declared.Refusal.TheVariants.{Line};
ghost use Rattle.station.specs.Station.{number_returned};

use bridge::Bridge;
use wire::Chips;

#[derive(Clone, Copy)]
pub struct Station {
    pub bridge: Bridge,
    pub chips: Chips,
}

// Why a chip is not fitted ("Refusals" of R-7).
#[derive(Clone, Copy, PartialEq, Eq)]
pub enum Refusal {
    // What any probe is refused with.
    Line(line::Refusal),
    // The family is not that of a chip.
    Family,
    // The address is above 127.
    Address,
}

impl Refusal {
    // Its number in the tables.
    pub fn number(self) -> u8
        ensures { result ≡ number_returned self }
    {
        match self {
            Refusal::Line(refusal) => refusal.number(),
            Refusal::Family => 21,
            Refusal::Address => 22,
        }
    }
}

impl From<line::Refusal> for Refusal {
    ghost from_gives = { λ own r. r ≡ Line own };

    fn from(own: line::Refusal) -> Refusal {
        Refusal::Line(own)
    }
}

impl From<identity::Refusal> for Refusal {
    ghost from_gives = { λ own r. r ≡ Line (of_identity own) };

    fn from(own: identity::Refusal) -> Refusal {
        Refusal::Line(line::Refusal::from(own))
    }
}
