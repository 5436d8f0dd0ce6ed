// The lines of the transcript, put into its buffer one behind the other.
ghost use Rattle.std.specs.Prelude.{[], ◌∷◌, ◌≡◌, ◌+◌, ◌<◌, ◌≤◌, length};
ghost use Rattle.transcript.specs.Text.{Puts, pair_of, behind_number};
ghost use Rattle.transcript.specs.Transcript.{decimal, hex_digit, hexadecimal};

// The text so far stands at the front of the buffer and is so many bytes long; more is put behind it.
#[derive(Drop)]
pub(crate) struct Lines<'a> {
    pub(crate) out: &'a mut [u8],
    pub(crate) len: usize,
}

// As it is: each method asks for the room of its own text, so no one fact of `Lines` stands for these; digits by hand: see `decimal`.
impl Lines<'_> {
    fn byte(&mut self, byte: u8)
        requires { self.old.len + 1 ≤ length self.old.out.now }
        ensures { Puts self.old self.new (byte ∷ []) }
    {
        self.out[self.len] = byte;
        self.len += 1;
    }

    fn digit(&mut self, digit: u16)
        requires { (self.old.len + 1 ≤ length self.old.out.now) × (digit < 10) }
        ensures { Puts self.old self.new ((48 + digit) ∷ []) }
    {
        self.byte(b'0' + digit as u8);
    }

    // A number below 100 as two digits.
    fn pair(&mut self, n: u16)
        requires { (self.old.len + 2 ≤ length self.old.out.now) × (n < 100) }
        ensures { Puts self.old self.new (pair_of n) }
    {
        self.digit(n / 10);
        self.digit(n % 10);
    }

    // A number in decimal: five digits at most. The longest are looked for first, since most events of a long script have them.
    // As it is: `write!` took 104 instructions a number, not 37, so a script of reads misses the C model; `itoa` would be trusted anew.
    pub(crate) fn decimal(&mut self, n: u16)
        requires { self.old.len + 5 ≤ length self.old.out.now }
        ensures puts { Puts self.old self.new (decimal n) }
        ensures upper_bound { self.new.len ≤ self.old.len + 5 }
    {
        if 10000 <= n {
            self.digit(n / 10000);
            self.pair(n / 100 % 100);
            self.pair(n % 100);
        } else if 1000 <= n {
            self.pair(n / 100);
            self.pair(n % 100);
        } else if 100 <= n {
            self.digit(n / 100);
            self.pair(n % 100);
        } else if 10 <= n {
            self.pair(n);
        } else {
            self.digit(n);
        }
    }

    // The letter of an event, between spaces.
    fn letter(&mut self, letter: u8)
        requires { self.old.len + 3 ≤ length self.old.out.now }
        ensures { Puts self.old self.new (0x20 ∷ letter ∷ 0x20 ∷ []) }
    {
        self.byte(b' ');
        self.byte(letter);
        self.byte(b' ');
    }

    // What stands behind the event's number where the value is a number from the table.
    pub(crate) fn number(&mut self, letter: u8, value: u8)
        requires { (self.old.len + 6 ≤ length self.old.out.now) × (value < 10) }
        ensures puts { Puts self.old self.new (behind_number letter (decimal value)) }
        ensures upper_bound { self.new.len ≤ self.old.len + 6 }
    {
        self.letter(letter);
        self.byte(b'0' + value);
        self.byte(b'\n');
    }

    // What stands behind the number of a read.
    pub(crate) fn hexadecimal(&mut self, byte: u8)
        requires { self.old.len + 6 ≤ length self.old.out.now }
        ensures puts { Puts self.old self.new (behind_number 0x52 (hexadecimal byte)) }
        ensures upper_bound { self.new.len ≤ self.old.len + 6 }
    {
        self.letter(b'R');
        self.byte(hex_digit(byte / 16));
        self.byte(hex_digit(byte % 16));
        self.byte(b'\n');
    }
}

// As it is: one digit; `write!` would go through the formatter that `decimal` measured.
#[tactic(auto, unfolding(crate::specs::Transcript::hex_digit), using(std::proofs::lemmas::Bool::Decides::nat_tests))]
fn hex_digit(d: u8) -> u8
    requires { d < 16 }
    ensures { result ≡ hex_digit d }
{
    if d < 10 { b'0' + d } else { b'A' - 10 + d }
}
