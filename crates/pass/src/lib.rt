// One pass of a ROM search, where a probe is present (document 01, "The search"): Write Byte F0h and 64 triplets, through the bridge's own
// calls with time passing after each.
//
// A pass asks at each bit for a direction, which the ID and the last conflict of the pass before it set. It gives back the bridge, the ID
// at which it ended, and its own last conflict. specs/Pass.antt says what a pass is, and specs/Passes.antt what the passes of a search come
// to.
//
// Worked example: with A, B and C fitted, the first pass asks for 0 at every bit, ends at C, and has its last conflict at bit 0; the second
// takes 1 there and ends at B.
#![tactic(auto)]

ghost use Rattle.std.specs.Prelude.{◌≡◌, ◌+◌, ◌*◌, ◌^◌, ◌<◌};
ghost use Rattle.probe.specs.Probe.{digit};
ghost use Rattle.bridge.specs.Bridge.{command as command_of};
ghost use Rattle.pass.specs.Pass.{direction as direction_at, noted as noted_at, triplet_byte, begun, walked, passed};

use bridge::Bridge;
use probe::SEARCH_ROM;

// A pass under way: the bridge, the bits taken so far as a number, and the last conflict so far: the highest bit at which both levels were
// 0 and 0 was taken, if there is one.
#[derive(Clone, Copy)]
pub struct Walk {
    pub bridge: Bridge,
    pub id: u64,
    pub conflict: Option<u8>,
}

// A write, and time passing: a write that is refused leaves the bridge as it was.
#[tactic(auto, unfolding(bridge::specs::Bridge::command))]
pub fn command(bridge: Bridge, bytes: &[u8]) -> Bridge
    ensures { result ≡ command_of bytes.now bridge }
{
    // Each outcome has its own `wait`: one that takes either bridge copies it twice more.
    match bridge.write(bytes) {
        Ok(written) => written.wait(),
        Err(_) => bridge.wait(),
    }
}

// The direction to ask for at bit k, after a pass that ended at an ID with a last conflict.
#[tactic(auto, unfolding(crate::specs::Pass::direction))]
fn direction(previous: u64, conflict: Option<u8>, k: u8) -> bool
    ensures { result ≡ direction_at previous conflict k }
{
    match conflict {
        None => false,
        Some(bit) if k < bit => identity::bit(previous, k),
        Some(bit) => k == bit,
    }
}

fn triplet_byte(direction: bool) -> u8
    ensures { result ≡ triplet_byte direction }
{
    u8::from(direction) * 128
}

// The last conflict after the triplet of bit k.
#[tactic(auto, unfolding(crate::specs::Pass::noted))]
fn noted(first: bool, second: bool, taken: bool, k: u8, conflict: Option<u8>) -> Option<u8>
    ensures { result ≡ noted_at first second taken k conflict }
{
    if first || second || taken {
        conflict
    } else {
        Some(k)
    }
}

// The bits below k, and bit k.
fn with_bit(id: u64, bit: bool, k: u8) -> u64
    requires { (k < 64) × (id < 2 ^ k) }
    ensures { (result ≡ id + digit bit * 2 ^ k) × (result < 2 ^ (k + 1)) }
{
    if bit { id + (1 << k) } else { id }
}

// The 64 triplets of a pass. Only the bridge goes round.
fn triplets(previous: u64, before: Option<u8>, start: Bridge) -> Walk
    ensures { result ≡ walked 64 0 previous before (begun start) }
{
    let mut bridge = start;
    let mut id: u64 = 0;
    let mut conflict = None;
    for k in 0..64 {
        let asked = direction(previous, before, k);
        bridge = command(bridge, &[Bridge::TRIPLET, triplet_byte(asked)]);
        let status = bridge.registers.status;
        id = with_bit(id, status.dir, k);
        conflict = noted(status.sbr, status.tsb, status.dir, k, conflict);
    }
    Walk {
        bridge,
        id,
        conflict,
    }
}

// A pass where a probe is present: it goes on from the bridge of the walk before it, by the ID and the last conflict of that walk.
#[tactic(auto, unfolding(crate::specs::Pass::passed))]
pub fn pass(before: Walk) -> Walk
    ensures { result ≡ passed before.id before.conflict before.bridge }
{
    let told = command(before.bridge, &[Bridge::WRITE_BYTE, SEARCH_ROM]);
    triplets(before.id, before.conflict, told)
}
