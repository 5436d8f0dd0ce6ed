// Work for the benchmark (measure/line): 64 probes, and for each letter of the input, up to 120, 100 rounds of that work, each command given
// its time; of f one round.
//   w   1-Wire Reset, Search ROM and eight more bytes written
//   r   1-Wire Reset, Read ROM and eight bytes read: every probe sends in every slot
//   s   1-Wire Reset, Search ROM and 64 triplets: a whole pass of a search
//   p   1-Wire Reset, Read ROM and eight bytes written: every probe sends in every slot
//   m   1-Wire Reset, Search ROM and eight bytes read
//   W, R, S, P, M   the same at overdrive: all probes and the bridge are put there before the rounds, and the bridge back behind them
//   f   a full search
// After each work it prints the status and the read-data byte, and for f before them the CRC-16 of the list.
#![tactic(auto)]

use bridge::Bridge;
use std::io;
use std::io::{Cursor, Read};

// The most letters of the input that are read.
const MOST: usize = 120;

// The ID of family 19h with this serial number.
// As it is: other programs fit IDs so too, but programs share no code, and these lines in a library would be no plainer.
fn of_serial(n: u8) -> [u8; 8] {
    let mut id = [0x19, n, 0, 0, 0, 0, 0, 0];
    let crc = checksum::crc8(&id[..7]);
    id[7] = crc;
    id
}

fn with_64() -> Bridge {
    let mut bridge = Bridge::power_on();
    for n in 1..65 {
        bridge = bridge.fit(&of_serial(n)).unwrap_or(bridge);
    }
    bridge
}

fn bytes_after(mut bridge: Bridge) -> Bridge {
    for byte in 0..8 {
        bridge = pass::command(bridge, &[Bridge::WRITE_BYTE, byte]);
    }
    bridge
}

// One command so many times.
// As it is: the cases of the search have these lines too, but programs share no code; a library for a loop of three lines would be no plainer.
fn repeated(mut bridge: Bridge, times: u8, bytes: &[u8]) -> Bridge {
    for _ in 0..times {
        bridge = pass::command(bridge, bytes);
    }
    bridge
}

// As it is: a letter of the input says which work is done, and no caller hands one in.
fn round(bridge: Bridge, work: u8) -> Bridge {
    let reset = pass::command(bridge, &[0xB4]);
    match work {
        b'w' => bytes_after(pass::command(reset, &[0xA5, 0xF0])),
        b'r' => repeated(pass::command(reset, &[0xA5, 0x33]), 8, &[0x96]),
        b's' => repeated(pass::command(reset, &[0xA5, 0xF0]), 64, &[0x78, 0]),
        b'p' => bytes_after(pass::command(reset, &[0xA5, 0x33])),
        b'm' => repeated(pass::command(reset, &[0xA5, 0xF0]), 8, &[0x96]),
        _ => reset,
    }
}

// A full search; the checksum of its list is printed.
fn full_search(rt: &impl Print, before: Bridge) -> io::Result<Bridge> {
    let mut list = [0; 512];
    let searched = search::search(before, 65535, &mut list);
    print!(rt; "{:04x} ", checksum::crc16(&list))?;
    Ok(searched.map_or(before, |s| s.bridge))
}

fn rounds(rt: &impl Print, mut bridge: Bridge, work: u8) -> io::Result<Bridge> {
    if work == b'f' {
        return full_search(rt, bridge);
    }
    for _ in 0..100 {
        bridge = round(bridge, work);
    }
    Ok(bridge)
}

// All probes and the bridge at overdrive, by Overdrive-Skip ROM.
fn quickened(bridge: Bridge) -> Bridge {
    let slow = pass::command(bridge, &[0xD2, 0xF0]);
    let reset = pass::command(slow, &[0xB4]);
    let skipped = pass::command(reset, &[0xA5, 0x3C]);
    pass::command(skipped, &[0xD2, 0x78])
}

// The bridge at standard speed, its pointer at the status.
fn slowed(bridge: Bridge) -> Bridge {
    let slow = pass::command(bridge, &[0xD2, 0xF0]);
    pass::command(slow, &[0xE1, 0xF0])
}

fn worked(rt: &impl Print, before: Bridge, work: u8) -> io::Result<Bridge> {
    if work.is_ascii_uppercase() {
        let after = rounds(rt, quickened(before), work.to_ascii_lowercase())?;
        Ok(slowed(after))
    } else {
        rounds(rt, before, work)
    }
}

fn shown(rt: &impl Print, bridge: Bridge) -> io::Result<()> {
    let pointed = bridge.write(&[0xE1, 0xE1]).unwrap_or(bridge);
    println!(rt; "{:02x} {:02x}", bridge.read(), pointed.read())
}

// All letters are read before the first work. Where the input cannot be read any further, what came is what there is.
fn main(rt: HostRuntime) -> io::Result<()> {
    let mut works = Cursor::new([0; MOST]);
    // As it is: the bench reads so too, but programs share no code, and three lines in a library would be no plainer.
    let _ = io::copy(&mut rt.stdin().take(MOST as u64), &mut works);
    let end = works.position().min(MOST as u64) as usize;
    let mut bridge = with_64();
    for work in &works.get_ref()[..end] {
        bridge = worked(&rt, bridge, *work)?;
        shown(&rt, bridge)?;
    }
    Ok(())
}
