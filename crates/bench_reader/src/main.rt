// The bench reader: it reads a book from standard input and writes one answer for each line to standard output. `book` makes the answers; here bytes
// are only moved. The program promises (specs/Run.antt) that it feeds what each read brings, whole, once and in order; that it writes what the reader
// says of it; that the reader of the whole input answers the end of the input; and that it says on standard error what it could not do.
#![tactic(auto)]

ghost use Rattle.std.specs.Prelude.{◌≡◌, ◌+◌, ◌<◌, length};
ghost use Rattle.stdio.specs.Marks.{Came, Complained, Within};
ghost use Rattle.bench_reader.specs.Constants.{limits};
ghost use Rattle.bench_reader.specs.Run.{not_written, Ran, reads_max, Stops, Finished, Told};
ghost use Rattle.stdio.specs.declared.Report.TheVariants.{Bytes};
ghost use Rattle.bench_reader.specs.declared.Next.TheVariants.{More};

use bench_answers::ROW_MAX;
use book::BookReader;
use stdio::Report;

// The bytes that one read can bring.
type Chunk = [u8; CHUNK_MAX];

const CHUNK_MAX: usize = 16_384;

// Room for all that the reader can say of one chunk.
type Answers = [u8; ANSWERS_ROOM];

const ANSWERS_ROOM: usize = CHUNK_MAX * ROW_MAX;

// Nobody calls this: its promise says what each limit is.
fn constants() -> Limits
    ensures { result ≡ limits }
{
    Limits {
        chunk_max: CHUNK_MAX,
        answers_room: ANSWERS_ROOM,
    }
}

#[derive(Drop)]
struct Limits {
    chunk_max: usize,
    answers_room: usize,
}

// How a run goes on: it reads again; a byte came after the last line that is read; the input has ended; or a read or a write failed.
#[derive(Clone, Copy, PartialEq, Eq)]
enum Next {
    More,
    Over,
    End,
    Failed,
}

// A run so far: the number of its reads, the reader after them, and how it goes on. The contracts say what led to it (`Ran`), and no ghost field:
// such a field could hold it only truncated, and `Told` would then say less.
#[derive(Clone, Copy)]
struct Run {
    reads: u64,
    reader: BookReader,
    next: Next,
}

fn main(rt: HostRuntime) {
    let mut chunk = [0u8; CHUNK_MAX];
    let mut out = [0u8; ANSWERS_ROOM];
    answer_book(rt, &mut chunk, &mut out);
}

// All that the program does.
fn answer_book(rt: HostRuntime, chunk: &mut Chunk, out: &mut Answers)
    ensures { Told }
{
    let run = read_all(rt, chunk, out);
    match run.next {
        Next::More | Next::Failed => {}
        Next::End => {
            finish(rt, run.reader, out);
        }
        Next::Over => {
            finish(rt, run.reader, out);
            stdio::complain(rt, b"note: no line after the 999,999th was read\n");
        }
    }
}

// A loop must end, but an input need not. So the reads are counted, up to a number that no run reaches.
fn read_all(rt: HostRuntime, chunk: &mut Chunk, out: &mut Answers) -> Run
    ensures ran { Ran result.reads result.reader result.next }
    ensures stops { Stops result.reads result.next }
{
    let mut run = Run {
        reads: 0,
        reader: BookReader::new(),
        next: Next::More,
    };
    while run.next == Next::More && run.reads < u64::MAX {
        run = turn(rt, run, chunk, out);
    }
    run
}

// Reads once, and takes in what came.
fn turn(rt: HostRuntime, run: Run, chunk: &mut Chunk, out: &mut Answers) -> Run
    requires reads_lt_reads_max { run.reads < reads_max }
    requires ran { Ran run.reads run.reader More }
    ensures reads_value { result.reads ≡ run.reads + 1 }
    ensures ran_on { Ran result.reads result.reader result.next }
{
    let reads = run.reads + 1;
    match stdio::read_chunk(rt, run.reads, chunk) {
        Report::Bytes(count) => take_in(rt, run, chunk, count, out),
        Report::End => Run {
            reads,
            next: Next::End,
            ..run
        },
        Report::Failed => {
            stdio::complain(
                rt,
                b"error: standard input can't be read, so there is no END line\n",
            );
            Run {
                reads,
                next: Next::Failed,
                ..run
            }
        }
    }
}

// Feeds the reader what came, and writes what it says. The contract speaks of the whole buffer (`Came`), so the count stands beside it.
fn take_in(rt: HostRuntime, run: Run, chunk: &Chunk, count: usize, out: &mut Answers) -> Run
    requires reads_lt_reads_max { run.reads < reads_max }
    requires ran { Ran run.reads run.reader More }
    requires within { Within (length chunk.now) (Bytes count) }
    requires came { Came run.reads chunk.now (Bytes count) }
    ensures reads_value { result.reads ≡ run.reads + 1 }
    ensures ran_on { Ran result.reads result.reader result.next }
{
    let fed = run.reader.feed(&chunk[..count], out);
    let end = fed.said.unwrap_or(0);
    let written = stdio::write_text(rt, &out[..end]);
    let next = if !written {
        say_not_written(rt);
        Next::Failed
    } else if fed.reader.is_over() {
        Next::Over
    } else {
        Next::More
    };
    Run {
        reads: run.reads + 1,
        reader: fed.reader,
        next,
    }
}

fn say_not_written(rt: HostRuntime)
    ensures { Complained not_written }
{
    stdio::complain(rt, b"error: standard output can't be written\n");
}

// Writes the reader's last words, and complains if that fails.
fn finish(rt: HostRuntime, reader: BookReader, out: &mut Answers) -> bool
    ensures { Finished reader result }
{
    let end = reader.finish(out).unwrap_or(0);
    let done = stdio::write_text(rt, &out[..end]);
    if !done {
        say_not_written(rt);
    }
    done
}
