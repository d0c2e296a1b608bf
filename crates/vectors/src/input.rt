// The text on standard input: read in chunks, and handed on line by line.
use crate::state::State;
use std::io;
use std::io::Read;

// A longer line isn't taken; a call that changes every word has some 1,400 bytes.
const LONGEST: usize = 2048;

// How many bytes a read takes at most.
const CHUNK: usize = 4096;

// The bytes of the next line that fit, and how many came. No `Vec`: the program asks for no memory,
// so it can't fail for want of it.
#[derive(Drop)]
struct Line {
    bytes: [u8; LONGEST],
    length: usize,
}

impl Line {
    fn empty() -> Line {
        Line {
            bytes: [0; LONGEST],
            length: 0,
        }
    }

    fn push(&mut self, b: u8) {
        if let Some(place) = self.bytes.get_mut(self.length) {
            *place = b;
        }
        self.length = self.length.saturating_add(1);
    }

    // Hands it on, and begins the next.
    fn end(&mut self, rt: &impl Print, state: &mut State) -> io::Result<()> {
        match self.bytes.get(..self.length) {
            Some(line) => state.take_line(rt, line)?,
            None => state.take_bad_line(rt)?,
        }
        self.length = 0;
        Ok(())
    }
}

// What stands behind the last newline isn't a line, and a text that can't be read isn't one
// either.
pub fn take_text(rt: &(impl Input + Print)) -> io::Result<State> {
    let mut state = State::start();
    let mut reader = rt.reader();
    let mut line = Line::empty();
    let mut chunk = [0; CHUNK];
    // Each loop has to end, and a text has no length that is known.
    for _ in 0..u64::MAX {
        match reader.read(&mut chunk) {
            Ok(0) if line.length == 0 => break,
            Ok(0) | Err(_) => {
                state.take_bad_line(rt)?;
                break;
            }
            Ok(n) => {
                for b in chunk.iter().take(n) {
                    if *b == b'\n' {
                        line.end(rt, &mut state)?;
                    } else {
                        line.push(*b);
                    }
                }
            }
        }
    }
    Ok(state)
}
