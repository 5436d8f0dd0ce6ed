// The bridge's cases of document 01, "Tried on paper", and of what it leaves to be tried, run through the calls.
//
// The cases are the lines of the file stdin. A line that begins with a dash is a title, and a case begins at power-on. In the other lines
// pairs of hexadecimal digits are bytes, and a letter acts, with the bytes before it where it takes any:
//
//     w   they are written to the bridge
//     i   the probe of that ID is fitted;  a, b, c   the one of the ID A, B or C there
//     o   the probe of that ID is taken off the line
//     s   after a 1-Wire reset they go out on the line, each by Write Byte and with its time
//     r   a read      t   time passes
//     p   the strong pull-up where it is on, and the probes, as the fields of the bridge have them
//     g   eight bytes come in from the line: Read Byte, its time, and what the read-data register holds
//     d   64 triplets with the direction 0, each with its time
//     f   63 probes are fitted
//
// Each line of the output is a title, an act, the pull-up or a probe.
#![tactic(auto)]

mod acts;
mod hex;
mod show;

use acts::Case;
use bridge::Bridge;
use std::io;
use std::io::{Cursor, Read};

// The most bytes of the input that are read.
const MOST: usize = 65536;

fn run<R: Print>(rt: &R, text: &[u8]) -> io::Result<()> {
    let mut case = Case {
        rt,
        bridge: Bridge::power_on(),
    };
    for line in text.split(|c| *c == b'\n') {
        if let [b'-', ..] = line {
            rt.write_all(line)?;
            println!(rt; "")?;
            case.bridge = Bridge::power_on();
        } else {
            case.run(line)?;
        }
    }
    Ok(())
}

// Where the input cannot be read any further, what came is what there is.
fn main(rt: HostRuntime) -> io::Result<()> {
    let mut text = Cursor::new([0; MOST]);
    // As it is: the bench reads so too, but programs share no code, and three lines in a library would be no plainer.
    let _ = io::copy(&mut rt.stdin().take(MOST as u64), &mut text);
    let end = text.position().min(MOST as u64) as usize;
    run(&rt, &text.get_ref()[..end])
}
