// The bench program (document 01, "The bench script"): a script on standard input, a line for each event on standard output.
//
// One byte more than the longest script is read, so that a longer one is seen to be too long. The exit status is always 0, so output that
// is lost is told on standard error.
#![tactic(auto)]

use std::io;
use std::io::{Cursor, Read, Write};

// One byte more than the longest script.
const MOST: usize = 4097;

// Runs the script and prints its lines.
fn print(rt: &HostRuntime, script: &[u8]) {
    let mut out = [0u8; transcript::MOST];
    let len = output::output(script, &mut out);
    if rt.stdout().write_all(&out[..len]).is_err() {
        let _ = rt
            .stderr()
            .write_all(b"bench: not all of the output was written\n");
    }
}

// Where the input cannot be read any further, what came is the script.
fn main(rt: HostRuntime) {
    let mut script = Cursor::new([0u8; MOST]);
    let _ = io::copy(&mut rt.stdin().take(MOST as u64), &mut script);
    let end = script.position().min(MOST as u64) as usize;
    print(&rt, &script.get_ref()[..end]);
}
