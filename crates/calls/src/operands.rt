// Reads the fields of a line, one after the other. A field that is missing or out of its form reads as `None`.
use crate::bytes::{BYTES_ROOM, ByteString};
use event::{IsrDecode, RxCompletedEvent};
use fsm::CollisionPolicy;
use halfbits::HalfBitBuffer;
use lengths::BitLengths;
use search::BestPhaseSearch;
use text::decimals::{read_byte, read_number};
use text::hex::{read_hex, read_hex_number};
use text::signed::read_signed;
use text::{fields, words};
use window::{PhaseDecode, SampleWindow};

// A line, and the place in it from which on nothing is read yet. One space stands between each two fields.
#[derive(Clone, Copy)]
pub(crate) struct Operands<'a> {
    line: &'a [u8],
    from: usize,
}

impl<'a> Operands<'a> {
    pub(crate) fn of(line: &'a [u8]) -> Operands<'a> {
        Operands { line, from: 0 }
    }

    pub(crate) fn field(&mut self) -> Option<&'a [u8]> {
        if self.line.len() < self.from {
            return None;
        }
        let end = fields::find(self.line, b' ', self.from);
        let field = &self.line[self.from..end];
        self.from = end + 1;
        Some(field)
    }

    // Whether every field was read.
    pub(crate) fn at_end(&self) -> bool {
        self.line.len() < self.from
    }

    pub(crate) fn level(&mut self) -> Option<bool> {
        match self.field()? {
            b"0" => Some(false),
            b"1" => Some(true),
            _ => None,
        }
    }

    pub(crate) fn byte_up_to(&mut self, most: u8) -> Option<u8> {
        read_byte(self.field()?, most)
    }

    pub(crate) fn byte(&mut self) -> Option<u8> {
        self.byte_up_to(u8::MAX)
    }

    pub(crate) fn short(&mut self) -> Option<u16> {
        u16::try_from(read_number(self.field()?, 65_535)?).ok()
    }

    pub(crate) fn signed(&mut self) -> Option<i8> {
        read_signed(self.field()?)
    }

    pub(crate) fn hex_byte(&mut self) -> Option<u8> {
        u8::try_from(read_hex_number(self.field()?, 2)?).ok()
    }

    pub(crate) fn three_hex_bytes(&mut self) -> Option<[u8; 3]> {
        Some([self.hex_byte()?, self.hex_byte()?, self.hex_byte()?])
    }

    // A mask of lengths, as the set of them. No set holds 32, which fills the list.
    pub(crate) fn lengths(&mut self) -> Option<BitLengths> {
        let mask = read_hex_number(self.field()?, 8)?;
        let mut lengths = [32u8; 32];
        for length in 0..32u8 {
            if (mask >> length) % 2 == 1 {
                lengths[length as usize] = length;
            }
        }
        Some(BitLengths::of(&lengths))
    }

    // A new search that prefers the lengths of a mask.
    pub(crate) fn search(&mut self) -> Option<BestPhaseSearch> {
        Some(BestPhaseSearch::new(self.lengths()?))
    }

    // `text` promises what the place of a word is, so these three are looked up by it; a `match` would promise nothing.
    pub(crate) fn policy(&mut self) -> Option<CollisionPolicy> {
        let policies = [
            CollisionPolicy::Auto,
            CollisionPolicy::Off,
            CollisionPolicy::On,
        ];
        policies
            .get(words::place(self.field()?, b"auto off on"))
            .copied()
    }

    fn bytes<const N: usize>(&mut self) -> Option<[u8; N]> {
        let mut bytes = [0; N];
        if !read_hex(self.field()?, &mut bytes) {
            return None;
        }
        Some(bytes)
    }

    // Any number of bytes, with `-` for none.
    pub(crate) fn byte_string(&mut self) -> Option<ByteString> {
        let field = self.field()?;
        if let b"-" = field {
            return Some(ByteString::EMPTY);
        }
        let len = field.len() / 2;
        if len == 0 || BYTES_ROOM < len {
            return None;
        }
        let mut held = [0; BYTES_ROOM];
        if !read_hex(field, &mut held[..len]) {
            return None;
        }
        Some(ByteString { held, len })
    }

    // How many ticks to make.
    pub(crate) fn ticks(&mut self) -> Option<u16> {
        u16::try_from(read_number(self.field()?, 4_096)?).ok()
    }

    // `HEX N`: the levels of N ticks.
    pub(crate) fn levels(&mut self) -> Option<(ByteString, u16)> {
        let levels = self.byte_string()?;
        let ticks = self.ticks()?;
        if levels.len != ByteString::len_of(ticks) {
            return None;
        }
        Some((levels, ticks))
    }

    // `LEN HEX14`
    pub(crate) fn halfbits(&mut self) -> Option<HalfBitBuffer> {
        let length = self.byte()?;
        let data = self.bytes()?;
        Some(HalfBitBuffer { data, length })
    }

    // `COUNT HEX128`
    pub(crate) fn event(&mut self) -> Option<RxCompletedEvent> {
        let sample_count = self.short()?;
        let samples = self.bytes()?;
        Some(RxCompletedEvent {
            samples,
            sample_count,
            ..RxCompletedEvent::new()
        })
    }

    // The window of the same two fields.
    pub(crate) fn window(&mut self) -> Option<SampleWindow> {
        let event = self.event()?;
        Some(SampleWindow::of_capture(&event.samples, event.sample_count))
    }

    // `LEN PHASE SCORE`. `is_better_decode` looks at no data.
    pub(crate) fn place(&mut self) -> Option<PhaseDecode> {
        let bit_len = self.byte()?;
        let phase_ticks = self.signed()?;
        let score = self.short()?;
        Some(PhaseDecode {
            bit_len,
            phase_ticks,
            score,
            data: 0,
        })
    }

    // `LEN PHASE SCORE DATA16`, or `none`
    fn decode(&mut self) -> Option<Option<PhaseDecode>> {
        let mut after = *self;
        if let b"none" = after.field()? {
            *self = after;
            return Some(None);
        }
        let place = self.place()?;
        let data = read_hex_number(self.field()?, 16)?;
        Some(Some(PhaseDecode { data, ..place }))
    }

    // A new event that holds a finished search. The same fields say what the search found.
    pub(crate) fn finished_event(&mut self) -> Option<RxCompletedEvent> {
        Some(RxCompletedEvent {
            isr_decode: IsrDecode::Decoded(self.decode()?),
            ..RxCompletedEvent::new()
        })
    }
}
