// Standard input, standard output and standard error. No promise can say what a file holds. So each call hands out a mark, which no proof can make by
// itself: `Came` of what a read reported, `Went` of a text to be written, `Complained` of a message. A program that promises something of its input
// and output can keep the promise only by making these calls. They take the runtime of the process and no bound, under which a stand-in could be
// passed: so the calls that leave the marks reach the outside.
#![tactic(auto)]

ghost use Rattle.std.specs.Prelude.{◌≡◌, length};
ghost use Rattle.stdio.specs.Marks.{Came, Went, Complained, Within};

use std::io::Read;

// What a read reported: that many bytes, at the start of the buffer; the end of the input; or a failure.
#[derive(Clone, Copy)]
pub enum Report {
    Bytes(usize),
    End,
    Failed,
}

// Reads once. `number` is the number of reads before this one, by the caller's count.
pub fn read_chunk(rt: HostRuntime, number: u64, chunk: &mut [u8]) -> Report
    ensures within { Within (length chunk.new) result }
    ensures came { Came number chunk.new result }
{
    match rt.stdin().read(chunk) {
        Ok(0) => Report::End,
        Ok(count) => Report::Bytes(count),
        Err(_) => Report::Failed,
    }
}

// Writes the whole text, and tells whether that succeeded. A bool says it all, since a program does the same whatever the failure was.
pub fn write_text(rt: HostRuntime, text: &[u8]) -> bool
    ensures { Went text.now result }
{
    rt.stdout().write_all(text).is_ok()
}

// Writes a message to standard error.
pub fn complain(rt: HostRuntime, message: &[u8])
    ensures { Complained message.now }
{
    let _ = rt.stderr().write_all(message);
}
