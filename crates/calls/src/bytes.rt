// Bytes of any number, as far as a line has room for their hex.
ghost use Rattle.std.specs.Str.{IsAscii};

use std::fmt;
use text::{fields, hex};

pub(crate) const BYTES_ROOM: usize = 1_024;

// The hex of so many bytes is written at once.
const AT_ONCE: usize = 64;

// Memory is fixed, so the length stands beside the room.
#[derive(Clone, Copy)]
pub(crate) struct ByteString {
    pub(crate) held: [u8; BYTES_ROOM],
    pub(crate) len: usize,
}

impl ByteString {
    pub(crate) const EMPTY: ByteString = ByteString {
        held: [0; BYTES_ROOM],
        len: 0,
    };

    // A byte has eight levels, the first as its top bit.
    pub(crate) fn len_of(levels: u16) -> usize {
        (levels as usize + 7) / 8
    }

    pub(crate) fn level(&self, i: u16) -> bool {
        let byte = self.held[i as usize / 8 % BYTES_ROOM];
        (byte >> (7 - i % 8)) % 2 == 1
    }

    // The levels that a call makes for each number below `count`. The bits that fill the last byte are 0.
    pub(crate) fn of_levels<F: FnMut(u16) -> bool>(count: u16, mut level: F) -> ByteString
        requires { F.IsAlwaysCallable level }
    {
        let mut held = [0; BYTES_ROOM];
        for i in 0..count {
            if level(i) {
                held[i as usize / 8 % BYTES_ROOM] |= 0x80 >> (i % 8);
            }
        }
        ByteString {
            held,
            len: ByteString::len_of(count),
        }
    }

    pub(crate) fn as_slice(&self) -> &[u8] {
        fields::first(&self.held, self.len)
    }

    pub(crate) fn as_mut_slice(&mut self) -> &mut [u8] {
        if BYTES_ROOM < self.len {
            return &mut self.held;
        }
        &mut self.held[..self.len]
    }
}

impl fmt::Display for ByteString {
    fn fmt<W: fmt::Write>(&self, f: &mut fmt::Formatter<W>) -> fmt::Result {
        write!(f, "{}", Hex(self.as_slice()))
    }
}

// Two digits for each byte, or `-` for no bytes. `text` writes them, since it promises what they are, and a format promises nothing.
#[derive(Clone, Copy)]
pub(crate) struct Hex<'a>(pub(crate) &'a [u8]);

impl fmt::Display for Hex<'_> {
    fn fmt<W: fmt::Write>(&self, f: &mut fmt::Formatter<W>) -> fmt::Result {
        if self.0.is_empty() {
            return write!(f, "-");
        }
        for bytes in self.0.chunks(AT_ONCE) {
            write_hex(f, bytes)?;
        }
        Ok(())
    }
}

// A number that is written as sixteen hex digits.
#[derive(Clone, Copy)]
pub(crate) struct Digits(pub(crate) u64);

impl fmt::Display for Digits {
    fn fmt<W: fmt::Write>(&self, f: &mut fmt::Formatter<W>) -> fmt::Result {
        write_digits(f, self.0)
    }
}

// Of more than `AT_ONCE` bytes it writes none.
fn write_hex<W: fmt::Write>(f: &mut fmt::Formatter<W>, bytes: &[u8]) -> fmt::Result {
    let mut digits = [0; 2 * AT_ONCE];
    let end = hex::put_hex(&mut digits, 0, bytes);
    f.write_str(as_text(fields::first(&digits, end)))
}

fn write_digits<W: fmt::Write>(f: &mut fmt::Formatter<W>, number: u64) -> fmt::Result {
    let mut digits = [0; 16];
    let end = hex::put_hex_digits(&mut digits, 0, number, 16);
    f.write_str(as_text(fields::first(&digits, end)))
}

fn as_text(digits: &[u8]) -> &str
    requires { IsAscii digits.now }
{
    str::from_utf8(digits).unwrap()
}
