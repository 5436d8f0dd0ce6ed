// What the bench prints for a script (document 01, "The bench script"): the lines of its run, or the single line 15.
//
// The run refuses a malformed script and leaves the buffer; here its number becomes the line that is printed.
//
// Worked example: for 00 05 1F 04 6D 24 it is the five lines of the run; for no byte at all it is 15 and a newline.
#![tactic(auto)]

ghost use Rattle.std.specs.Prelude.{◌∷◌, ◌++◌, ◌≡◌, ◌<◌, ◌≤◌, length, drop};
ghost use Rattle.transcript.specs.Text.{pair_of};
ghost use Rattle.output.specs.Output.{transcript_of};

// The line of a refused script: its number, which has two digits.
// As it is: by `write!` there would be a Result to handle and the rest of the slice to count, for one line of digits.
fn put_refusal(out: &mut [u8], number: u8) -> usize
    requires { (number < 100) × (3 ≤ length out.old) }
    ensures { (result ≡ 3) × (out.new ≡ pair_of number ++ 0x0A ∷ drop 3 out.old) }
{
    let line = [b'0' + number / 10, b'0' + number % 10, b'\n'];
    out[..3].copy_from_slice(&line);
    line.len()
}

// Lays what the bench prints to the front of the buffer, and returns how many bytes that is.
// As it is: the clause `value` gives the length, as that of the run does.
pub fn output(script: &[u8], out: &mut [u8; transcript::MOST]) -> usize
    ensures value { result ≡ length (transcript_of script.now) }
    ensures out_after { out.new ≡ transcript_of script.now ++ drop (length (transcript_of script.now)) out.old }
{
    match transcript::transcript(script, out) {
        Ok(len) => len,
        Err(refusal) => put_refusal(out, refusal.number()),
    }
}
