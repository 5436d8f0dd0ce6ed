// What the letters of a case do, each with the line that it prints.
use crate::hex::{Spaced, decode};
use crate::show;
use bridge::Bridge;
use std::io;

// As it is: the cases of the search have these IDs too, but programs share no code, and a library of three constants would be no plainer.
const A: [u8; 8] = [0x19, 0x01, 0, 0, 0, 0, 0, 0x00];

const B: [u8; 8] = [0x19, 0x02, 0, 0, 0, 0, 0, 0x59];

const C: [u8; 8] = [0x02, 0x1C, 0xB8, 0x01, 0, 0, 0, 0xA2];

// The ID whose bytes are given.
fn given_id(text: &[u8]) -> [u8; 8] {
    let mut id = [0; 8];
    decode(text, &mut id);
    id
}

// A case under way: where it is printed, and the bridge.
#[derive(Drop)]
pub(crate) struct Case<'a, R> {
    pub(crate) rt: &'a R,
    pub(crate) bridge: Bridge,
}

impl<R: Print> Case<'_, R> {
    // The call, its bytes and the number that it gave.
    // As it is: the three calls refuse by enums of their own, and all that is printed is the number.
    fn answered(&mut self, word: &str, bytes: &[u8], answer: Result<Bridge, u8>) -> io::Result<()> {
        let number = match answer {
            Ok(after) => {
                self.bridge = after;
                0
            }
            Err(number) => number,
        };
        println!(self.rt; "{word}{}: {number}", Spaced(bytes))
    }

    // A write of which nothing is printed.
    fn give(&mut self, bytes: &[u8]) {
        self.bridge = self.bridge.write(bytes).unwrap_or(self.bridge);
    }

    // One, and its time.
    fn command(&mut self, bytes: &[u8]) {
        self.give(bytes);
        self.bridge = self.bridge.wait();
    }

    fn wait(&mut self) -> io::Result<()> {
        println!(self.rt; "time passes")?;
        self.bridge = self.bridge.wait();
        Ok(())
    }

    fn write(&mut self, text: &[u8]) -> io::Result<()> {
        let mut room = [0; 16];
        let bytes = decode(text, &mut room);
        let answer = self.bridge.write(bytes).map_err(|refusal| refusal.number());
        self.answered("write", bytes, answer)
    }

    fn fit(&mut self, id: &[u8; 8]) -> io::Result<()> {
        let answer = self.bridge.fit(id).map_err(|refusal| refusal.number());
        self.answered("fit", id, answer)
    }

    fn withdraw(&mut self, id: &[u8; 8]) -> io::Result<()> {
        let answer = self.bridge.withdraw(id).map_err(|refusal| refusal.number());
        self.answered("withdraw", id, answer)
    }

    fn send(&mut self, text: &[u8]) -> io::Result<()> {
        let mut room = [0; 16];
        let bytes = decode(text, &mut room);
        println!(self.rt; "reset, send{}", Spaced(bytes))?;
        self.command(&[Bridge::ONE_WIRE_RESET]);
        for byte in bytes {
            self.command(&[Bridge::WRITE_BYTE, *byte]);
        }
        Ok(())
    }

    fn receive(&mut self) -> io::Result<()> {
        print!(self.rt; "receive")?;
        for _ in 0..8 {
            self.command(&[Bridge::READ_BYTE]);
            self.give(&[Bridge::SET_READ_POINTER, Bridge::POINTER_READ_DATA]);
            print!(self.rt; " {:02X}", self.bridge.read())?;
        }
        println!(self.rt; "")
    }

    fn pass(&mut self) -> io::Result<()> {
        println!(self.rt; "64 triplets 78 00")?;
        for _ in 0..64 {
            self.command(&[Bridge::TRIPLET, 0]);
        }
        Ok(())
    }

    // The probes of family 19h with the serial numbers from 1 on.
    fn fit_63(&mut self) -> io::Result<()> {
        println!(self.rt; "fit 63 probes")?;
        for n in 1..64 {
            let mut id = [0x19, n, 0, 0, 0, 0, 0, 0];
            let crc = checksum::crc8(&id[..7]);
            id[7] = crc;
            self.bridge = self.bridge.fit(&id).unwrap_or(self.bridge);
        }
        Ok(())
    }

    // The effect of a letter, with the text of the bytes before it.
    // As it is: a letter of the input says which step is taken, and no caller hands one in.
    fn act(&mut self, letter: u8, text: &[u8]) -> io::Result<()> {
        match letter {
            b'w' => self.write(text),
            b'i' => self.fit(&given_id(text)),
            b'o' => self.withdraw(&given_id(text)),
            b's' => self.send(text),
            b'r' => println!(self.rt; "read: {:02X}", self.bridge.read()),
            b't' => self.wait(),
            b'a' => self.fit(&A),
            b'b' => self.fit(&B),
            b'c' => self.fit(&C),
            b'g' => self.receive(),
            b'd' => self.pass(),
            b'f' => self.fit_63(),
            b'p' => show::fields(self.rt, &self.bridge),
            _ => Ok(()),
        }
    }

    // A line's letters, each with the text between it and the letter before it.
    pub(crate) fn run(&mut self, line: &[u8]) -> io::Result<()> {
        for part in line.split_inclusive(|c| b'a' <= *c) {
            if let [text @ .., letter] = part {
                self.act(*letter, text)?;
            }
        }
        Ok(())
    }
}
