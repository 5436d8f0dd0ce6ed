// Taking a probe off the line (document 02, R-3).
//
// The probe goes at once, whatever it was doing. Those behind it move down, so that the others stay as they are and in the order in which
// they came, and a free entry holds what it held at power-on.
//
// Worked example: where A, B and C came in this order, withdrawing B leaves A and C; withdrawing B again gives 20.
#![tactic(auto)]

ghost use Rattle.std.specs.Prelude.{◌≡◌};
ghost use Rattle.line.specs.Line.{line_in};
ghost use Rattle.withdrawal.specs.Withdrawal.{withdraw_number, without, after_withdraw, number_returned, number_in};

use line::Line;

// What is wrong with a withdrawal ("Refusals" of R-3).
#[derive(Clone, Copy, PartialEq, Eq)]
pub enum Refusal {
    // No probe on the line has the ID.
    NotFitted,
}

impl Refusal {
    // Its number in the table of document 02.
    pub fn number(self) -> u8
        ensures { result ≡ number_returned self }
    {
        match self {
            Refusal::NotFitted => 20,
        }
    }
}

// The line with every probe but that of this ID. They are laid anew, one behind the other, over the entries of power-on.
// As it is: the entries kept go to a table of fixed memory, whose count is the place of the next.
fn without(line: Line, id: u64) -> Line
    ensures { result ≡ without id line }
{
    let mut rest = Line::bare();
    let n = line.entries();
    for p in &line.probes[..n] {
        if id != p.id {
            let to = rest.count;
            rest.probes[to] = *p;
            rest.count = to + 1;
        }
    }
    rest
}

// The line without the probe of this ID. If none has gone, the ID was not fitted.
#[tactic(auto, using(crate::proofs::Others::told), unfolding(crate::specs::Withdrawal::withdraw_number))]
pub fn withdraw(line: Line, id: &[u8; 8]) -> Result<Line, Refusal>
    ensures number_value { number_in result ≡ withdraw_number id.now line }
    ensures line_value { line_in line result ≡ after_withdraw id.now line }
{
    let rest = without(line, identity::number(id));
    if rest.count < line.entries() {
        Ok(rest)
    } else {
        Err(Refusal::NotFitted)
    }
}
