// The call protocol over the proved functions: one command a line on standard input, one answer a line on standard output. Only safety is proved of
// this program. `commands` reads a line as a command, field by field by `operands`; `kept` carries it out, and `reply` writes the answer. `bytes` has
// the buffer that commands and answers keep bytes in.
#![tactic(auto)]

mod bytes;
mod commands;
mod kept;
mod operands;
mod reply;

use crate::kept::Kept;
use lines::Lines;
use std::fmt;
use std::fmt::Write;
use text::{fields, writing};

const CHUNK_ROOM: usize = 65_536;

const ANSWERS_ROOM: usize = 65_536;

// Past this place the answers are written out, so that the next always has room. No answer has more than 2,100 bytes.
const NEARLY_FULL: usize = ANSWERS_ROOM - 4_096;

// Answers wait here until they are written. Memory is fixed, so the length stands beside the room.
#[derive(Drop)]
struct Answers {
    text: [u8; ANSWERS_ROOM],
    len: usize,
}

impl fmt::Write for Answers {
    fn write_str(&mut self, s: &str) -> fmt::Result {
        self.len = writing::put_text(&mut self.text, self.len, s.as_bytes());
        Ok(())
    }
}

#[derive(Drop)]
struct Session {
    kept: Kept,
    lines: Lines,
    answers: Answers,
    // Nothing has failed, and the input has not ended. The other fields count either way.
    open: bool,
}

impl Session {
    // Answers a line that has ended.
    fn end_line(&mut self, rt: HostRuntime) {
        let reply = self.kept.answer(self.lines.line());
        self.lines.len = 0;
        let _ = writeln!(self.answers, "{reply}");
        if NEARLY_FULL < self.answers.len {
            self.flush(rt);
        }
    }

    // Writes the answers that wait, unless a write has failed.
    fn flush(&mut self, rt: HostRuntime) {
        if self.open
            && !stdio::write_text(rt, fields::first(&self.answers.text, self.answers.len))
        {
            stdio::complain(rt, b"error: standard output can't be written\n");
            self.open = false;
        }
        self.answers.len = 0;
    }

    // Answers every line that ends in a chunk. Each turn of the loop takes at least one byte.
    fn take_in(&mut self, rt: HostRuntime, chunk: &[u8]) {
        let mut from = 0;
        while from < chunk.len() {
            let taken = self.lines.take(chunk, from);
            if taken.ended {
                self.end_line(rt);
            }
            if taken.next <= from {
                return;
            }
            from = taken.next;
        }
        self.flush(rt);
    }

    // Reads once, and answers the lines that have ended. At the end of the input it also answers a last line without LF.
    fn turn(&mut self, rt: HostRuntime, reads: u64, chunk: &mut [u8]) {
        match stdio::read_chunk(rt, reads, chunk) {
            stdio::Report::Bytes(count) => return self.take_in(rt, fields::first(chunk, count)),
            stdio::Report::Failed => stdio::complain(rt, b"error: standard input can't be read\n"),
            stdio::Report::End => {
                if 0 < self.lines.len {
                    self.end_line(rt);
                    self.flush(rt);
                }
            }
        }
        self.open = false;
    }
}

// A loop must end, but an input need not. So the reads are counted, up to a number that no run reaches.
fn main(rt: HostRuntime) {
    let mut chunk = [0; CHUNK_ROOM];
    let mut session = Session {
        kept: Kept::new(),
        lines: Lines::new(),
        answers: Answers {
            text: [0; ANSWERS_ROOM],
            len: 0,
        },
        open: true,
    };
    for reads in 0..u64::MAX {
        session.turn(rt, reads, &mut chunk);
        if !session.open {
            return;
        }
    }
}
