// The passes of a search, one after the other.
ghost use Rattle.std.specs.Prelude.{◌≡◌, ◌*◌, ◌≤◌, length, None};
ghost use Rattle.pass.specs.Passes.{searched, search};
ghost use Rattle.search.specs.Search.{told, written};

use crate::{Searched, listing};
use bridge::Bridge;
use pass::Walk;

fn listed(count: usize, passes: usize, complete: bool, bridge: Bridge) -> Searched
    ensures { result ≡ record { count = count; passes = passes; complete = complete; bridge = bridge } }
{
    Searched {
        count,
        passes,
        complete,
        bridge,
    }
}

// The passes, the Device Reset having been given. Each that goes on has found one ID, which comes to lie behind those found before it.
fn passes(allowed: usize, start: Bridge, list: &mut [u8]) -> Searched
    requires { (allowed ≤ 64) × (8 * allowed ≤ length list.old) }
    ensures told_value { result ≡ told (searched allowed 0 None start) }
    ensures list_after { list.new ≡ written (searched allowed 0 None start).ids list.old }
{
    let mut walk = Walk {
        bridge: start,
        id: 0,
        conflict: None,
    };
    for count in 0..allowed {
        walk.bridge = pass::command(walk.bridge, &[Bridge::ONE_WIRE_RESET]);
        if !walk.bridge.registers.status.ppd {
            return listed(count, count + 1, true, walk.bridge);
        }
        walk = pass::pass(walk);
        // As it is: a loop over `chunks_exact_mut` has an invariant that cannot name the list, and the proof of `list_after` does not close.
        listing::put(list, 8 * count, walk.id);
        if walk.conflict.is_none() {
            return listed(count + 1, count + 1, true, walk.bridge);
        }
    }
    listed(allowed, allowed, false, walk.bridge)
}

// All that a search does on the bridge; nothing where no pass is allowed.
#[tactic(auto, using(crate::proofs::Onward::search_some), unfolding(pass::specs::Passes::search, crate::specs::Search::list_of))]
pub(crate) fn all(allowed: usize, bridge: Bridge, list: &mut [u8]) -> Searched
    requires { (allowed ≤ 64) × (8 * allowed ≤ length list.old) }
    ensures told_value { result ≡ told (search allowed bridge) }
    ensures list_after { list.new ≡ written (search allowed bridge).ids list.old }
{
    if allowed == 0 {
        return listed(0, 0, false, bridge);
    }
    let reset = pass::command(bridge, &[Bridge::DEVICE_RESET]);
    passes(allowed, reset, list)
}
