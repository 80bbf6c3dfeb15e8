// Makes lines of bytes that come in chunks of any size. `Lines` holds the unfinished line, the one whose LF has not come yet. `take` adds to it from
// a chunk, one line at a time. It makes no difference where the input is cut into chunks.
#![tactic(auto)]

ghost use Rattle.std.specs.Prelude.{◌≡◌};
ghost use Rattle.lines.specs.Constants.{public_constants};
ghost use Rattle.lines.specs.Lines.{new_lines, waiting, extended, part_from, taken};

use text::{fields, writing};

// Room for 2,047 bytes, the longest line that a program takes, and for one byte more, which shows that a line is longer.
pub const LINE_ROOM: usize = 2_048;

// Nobody calls this: its promise says what each public constant is.
fn constants() -> PublicConstants
    ensures { result ≡ public_constants }
{
    PublicConstants {
        line_room: LINE_ROOM,
    }
}

#[derive(Drop)]
struct PublicConstants {
    line_room: usize,
}

// The first `len` bytes are the unfinished line, as far as there is room for it. Memory is fixed, so the length stands beside the room.
#[derive(Clone, Copy)]
pub struct Lines {
    pub held: [u8; LINE_ROOM],
    pub len: usize,
}

// What `take` answers: the place in the chunk to go on from, which counts in both cases, and whether the line has ended.
#[derive(Clone, Copy)]
pub struct Taken {
    pub next: usize,
    pub ended: bool,
}

impl Lines {
    pub fn new() -> Lines
        ensures { result ≡ new_lines }
    {
        Lines {
            held: [0; LINE_ROOM],
            len: 0,
        }
    }

    // The bytes of the unfinished line.
    pub fn line(&self) -> &[u8]
        ensures { result.now ≡ waiting self.now }
    {
        fields::first(&self.held, self.len)
    }

    // Takes in the bytes of the chunk from `from` on, up to the first LF or the end of the chunk. If the line has ended, its bytes without the LF are
    // held, and the caller takes in the next line with a `len` of 0.
    pub fn take(&mut self, chunk: &[u8], from: usize) -> Taken
        ensures value { result ≡ taken chunk.now from }
        ensures lines_after { self.new ≡ extended self.old (part_from chunk.now from) }
    {
        if chunk.len() <= from {
            return Taken {
                next: from,
                ended: false,
            };
        }
        let end = fields::find(chunk, b'\n', from);
        self.keep(&chunk[from..end]);
        if end == chunk.len() {
            return Taken {
                next: end,
                ended: false,
            };
        }
        Taken {
            next: end + 1,
            ended: true,
        }
    }

    // Adds bytes to the unfinished line. Bytes without room are dropped.
    fn keep(&mut self, bytes: &[u8])
        ensures { self.new ≡ extended self.old bytes.now }
    {
        let room = LINE_ROOM.saturating_sub(self.len);
        self.len = writing::put_text(&mut self.held, self.len, fields::first(bytes, room));
    }
}
