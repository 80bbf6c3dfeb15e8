// The heart of the bench reader (document 01, "The bench reader"). The caller feeds it a book in chunks of any size, and it writes the answers into a
// lent buffer. It makes no difference where the book is cut into chunks.
#![tactic(auto)]

ghost use Rattle.std.specs.Prelude.{◌≡◌, ◌+◌, ◌*◌, ◌≤◌, ◌<◌, length, Ok, Err};
ghost use Rattle.bench_answers.specs.Answer.{row_max};
ghost use Rattle.book.specs.Constants.{public_constants};
ghost use Rattle.book.specs.Report.{lines_max};
ghost use Rattle.book.specs.Reader.{one_more, new_reader, is_full, is_over, bytes_in, fed, buffer_fed, finished, buffer_finished};
ghost use Rattle.book.specs.Code.{Answered, AnsweredLine};

use bench_answers::{Counts, END_MAX, ROW_MAX};
use bench_text::{Capture, Refusal};
use lines::Lines;

// The reader reads this many lines of a book, and no line after them.
pub const MAX_LINES: u32 = 999_999;

// Room for the answer to a last line, and for the END line.
pub const FINISH_MAX: usize = ROW_MAX + END_MAX;

// Nobody calls this: its promise says what each public constant is.
fn constants() -> PublicConstants
    ensures { result ≡ public_constants }
{
    PublicConstants {
        max_lines: MAX_LINES,
        finish_max: FINISH_MAX,
    }
}

#[derive(Drop)]
struct PublicConstants {
    max_lines: u32,
    finish_max: usize,
}

#[derive(Clone, Copy)]
pub struct BookReader {
    // The unfinished line, whose LF has not come yet.
    lines: Lines,
    counts: Counts,
    // A line has ended after the last one that is read.
    over: bool,
}

// The buffer is too short, and nothing was done.
#[derive(Clone, Copy, PartialEq, Eq)]
pub struct NoRoom;

// The reader after a chunk, and how many bytes it wrote at the start of the buffer.
#[derive(Clone, Copy)]
pub struct Fed {
    pub reader: BookReader,
    pub said: Result<usize, NoRoom>,
}

// The counts after a line has been answered, and the place past its answer.
#[derive(Drop)]
struct Ended {
    counts: Counts,
    at: usize,
}

impl BookReader {
    #[tactic(auto, unfolding(crate::specs::Reader::new_reader))]
    pub fn new() -> BookReader
        ensures { result ≡ new_reader }
    {
        BookReader {
            lines: Lines::new(),
            counts: Counts {
                lines: 0,
                decoded: 0,
                refused: 0,
            },
            over: false,
        }
    }

    // The reader has read `MAX_LINES` lines, the most that it reads.
    #[tactic(auto, unfolding(crate::specs::Reader::is_full))]
    pub fn is_full(self) -> bool
        ensures { result ≡ is_full self }
    {
        MAX_LINES <= self.counts.lines
    }

    // A byte has come after these lines, and was not read.
    #[tactic(auto, unfolding(crate::specs::Reader::is_over))]
    pub fn is_over(self) -> bool
        ensures { result ≡ is_over self }
    {
        self.over || (self.is_full() && 0 < self.lines.len)
    }

    // Answers every line that ends in the chunk. It asks for `ROW_MAX` bytes of the buffer for each byte of the chunk, which is always enough.
    pub fn feed(self, chunk: &[u8], out: &mut [u8]) -> Fed
        ensures value { result ≡ fed self chunk.now (length out.old) }
        ensures out_after { out.new ≡ buffer_fed self chunk.now out.old }
        ensures said_in_bounds { bytes_in result.said ≤ length out.old }
    {
        if out.len() / ROW_MAX < chunk.len() {
            return Fed {
                reader: self,
                said: Err(NoRoom),
            };
        }
        self.take_in(chunk, out)
    }

    fn take_in(mut self, chunk: &[u8], out: &mut [u8]) -> Fed
        requires { row_max * length chunk.now ≤ length out.old }
        ensures value { result ≡ fed self chunk.now (length out.old) }
        ensures out_after { out.new ≡ buffer_fed self chunk.now out.old }
        ensures said_in_bounds { bytes_in result.said ≤ length out.old }
    {
        let mut at = 0;
        let mut from = 0;
        while from < chunk.len() {
            let taken = self.lines.take(chunk, from);
            from = taken.next;
            if taken.ended {
                if self.is_full() {
                    self.over = true;
                } else {
                    let ended = end_line(self.counts, self.lines.line(), out, at);
                    self.counts = ended.counts;
                    at = ended.at;
                }
                self.lines.len = 0;
            }
        }
        Fed {
            reader: self,
            said: Ok(at),
        }
    }

    // Answers the end of the input: a last line without its LF, and then the counts.
    pub fn finish(self, out: &mut [u8]) -> Result<usize, NoRoom>
        ensures value { result ≡ finished self (length out.old) }
        ensures out_after { out.new ≡ buffer_finished self out.old }
        ensures result_in_bounds { bytes_in result ≤ length out.old }
    {
        if out.len() < FINISH_MAX {
            return Err(NoRoom);
        }
        if self.is_full() || self.lines.len == 0 {
            return Ok(bench_answers::put_end(out, 0, self.counts));
        }
        let ended = end_line(self.counts, self.lines.line(), out, 0);
        Ok(bench_answers::put_end(out, ended.at, ended.counts))
    }
}

// No count goes past `MAX_LINES`.
fn one_more(count: u32) -> u32
    ensures { result ≡ one_more count }
{
    count.saturating_add(1).min(MAX_LINES)
}

// Answers a whole line and counts it. It asks for a line left to count and for room for a row, as the next two functions do: a struct of counts,
// buffer and place would have to promise the buffer too.
fn end_line(counts: Counts, text: &[u8], out: &mut [u8], at: usize) -> Ended
    requires lines_lt_lines_max { counts.lines < lines_max }
    requires row_max_in_bounds { at + row_max ≤ length out.old }
    ensures { AnsweredLine counts text.now at out.old out.new result }
{
    match bench_text::parse_line(text) {
        Ok(capture) => answer_capture(counts, capture, out, at),
        Err(refusal) => answer_refused(counts, refusal, out, at),
    }
}

fn answer_refused(counts: Counts, refusal: Refusal, out: &mut [u8], at: usize) -> Ended
    requires lines_lt_lines_max { counts.lines < lines_max }
    requires row_max_in_bounds { at + row_max ≤ length out.old }
    ensures { Answered counts (Err refusal) at out.old out.new result }
{
    let lines = counts.lines + 1;
    let end = bench_answers::put_bad(out, at, lines, refusal);
    Ended {
        counts: Counts {
            lines,
            refused: one_more(counts.refused),
            ..counts
        },
        at: end,
    }
}

#[tactic(auto, using(crate::proofs::Answering::row_laws))]
fn answer_capture(counts: Counts, capture: Capture, out: &mut [u8], at: usize) -> Ended
    requires lines_lt_lines_max { counts.lines < lines_max }
    requires row_max_in_bounds { at + row_max ≤ length out.old }
    ensures { Answered counts (Ok capture) at out.old out.new result }
{
    let reading = bench_reading::read_capture(capture);
    let lines = counts.lines + 1;
    let end = bench_answers::put_row(out, at, lines, capture, reading);
    let decoded = if bench_reading::is_decoded(reading) {
        one_more(counts.decoded)
    } else {
        counts.decoded
    };
    Ended {
        counts: Counts {
            lines,
            decoded,
            ..counts
        },
        at: end,
    }
}
