// The ROM search over the model (document 01, "The search").
//
// A search allowed b passes lists the IDs on the line in search order. Each pass is a 1-Wire Reset and, where a probe answers, Write Byte
// F0h and 64 triplets, through the bridge's own calls with time passing after each.
//
// Worked example: with A, B and C fitted, b = 2 lists C and B and is not complete; b = 3 lists C, B, A, complete, in 3 passes.
#![tactic(auto)]

mod listing;
mod passes;

ghost use Rattle.std.specs.Prelude.{◌≡◌};
ghost use Rattle.search.specs.Search.{number_of, answer_in, bridge_in, answer_of, buffer_of, bridge_of};

use bridge::Bridge;

// Why a search is refused: its list is shorter than 8 bytes for each ID that it may find.
#[derive(Clone, Copy, PartialEq, Eq)]
pub enum Refusal {
    Short,
}

impl Refusal {
    // The number in the table of document 01.
    pub fn number(self) -> u8
        ensures { result ≡ number_of self }
    {
        match self {
            Refusal::Short => 9,
        }
    }
}

// What a search comes to: so many IDs are listed, by so many passes, whether the list is complete, and the bridge afterwards.
// As it is: the count is a value of `answer_of`, and `buffer_of` says what the whole list holds, on a refusal too.
#[derive(Clone, Copy)]
pub struct Searched {
    pub count: usize,
    pub passes: usize,
    pub complete: bool,
    pub bridge: Bridge,
}

// The search. The IDs come to lie at the front of the list, eight bytes each; a refused search changes nothing.
pub fn search(bridge: Bridge, b: u16, list: &mut [u8]) -> Result<Searched, Refusal>
    ensures answer_value { answer_in result ≡ answer_of b list.old bridge }
    ensures bridge_value { bridge_in bridge result ≡ bridge_of b list.old bridge }
    ensures list_after { list.new ≡ buffer_of b list.old bridge }
{
    // More passes than there is room for probes do nothing more.
    let allowed = usize::from(b.min(64));
    if list.len() < 8 * allowed {
        return Err(Refusal::Short);
    }
    Ok(passes::all(allowed, bridge, list))
}
