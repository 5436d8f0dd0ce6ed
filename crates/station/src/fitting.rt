// Fitting a chip, and taking a probe of either kind off the line.
ghost use Rattle.std.specs.Prelude.{◌≡◌, ◌<◌};
ghost use Rattle.bridge.specs.Bridge.{number_by};
ghost use Rattle.withdrawal.specs.Withdrawal.{number_returned as withdrawal_number, withdraw_number};
ghost use Rattle.station.specs.Station.{number_in, station_in, chip_number, with_chip, after_chip, after_removal};

use crate::{Refusal, Station};
use chip::{Chip, NO_ADDRESS};
use wire::Chips;

// The family of a chip.
// As it is: a byte of the ID, and the one family that is asked for.
const FAMILY: u8 = 0x19;

// The entry of a chip that is fitted behind n probes.
// As it is: two stores, as in line's `with_probe`, of another table and another entry.
#[tactic(auto, unfolding(crate::specs::Station::with_chip))]
fn with_chip(mut chips: Chips, n: usize, address: u8) -> Chips
    requires { n < 64 }
    ensures { result ≡ with_chip n address chips }
{
    chips.table[n] = Chip::newly_fitted(address);
    chips.count = n + 1;
    chips
}

impl Station {
    // A chip is fitted, deaf and unmarked, its registers and its pointer zero. The ID by itself is checked first, then its family, then
    // whether it is there already and whether there is room, then the address.
    #[tactic(auto, using(crate::proofs::Numbers::fittings))]
    pub fn fit_chip(self, id: &[u8; 8], address: u8) -> Result<Station, Refusal>
        ensures number_value { number_in result ≡ chip_number id.now address self.bridge }
        ensures station_value { station_in self result ≡ after_chip id.now address self }
    {
        identity::admitted(id)?;
        if id[0] != FAMILY {
            return Err(Refusal::Family);
        }
        let bridge = self.bridge.fit(id)?;
        if NO_ADDRESS <= address {
            return Err(Refusal::Address);
        }
        let more = with_chip(self.chips, self.bridge.line.count, address);
        Ok(Station {
            bridge,
            chips: more,
        })
    }

    // A probe is withdrawn, and its entry with it.
    #[tactic(auto, using(crate::proofs::Numbers::removals))]
    pub fn withdraw(self, id: &[u8; 8]) -> Result<Station, withdrawal::Refusal>
        ensures number_value { number_by withdrawal_number result ≡ withdraw_number id.now self.bridge.line }
        ensures station_value { station_in self result ≡ after_removal id.now self }
    {
        let bridge = self.bridge.withdraw(id)?;
        let less = self.wire().without(identity::number(id));
        Ok(Station {
            bridge,
            chips: less,
        })
    }
}
