#![tactic(auto)]

// A line of bytes to its answer, and a stream of bytes to its output.
ghost use Rattle.std.specs.Prelude.{◌≡◌, ◌+◌, ◌≤◌, ◌^◌, min, length, set, take};
ghost use Rattle.kdb.specs.Frames.{parse, reply};
ghost use Rattle.text.specs.Text.{shown};
ghost use Rattle.replies.specs.Reply.{work_after, Replied};
ghost use Rattle.replies.specs.Served.{Served};
ghost use Rattle.frames.specs.Stream.{closed, asked};
ghost use Rattle.frames.specs.State.{counted, store_of, stage_of, Fed};

use answers::no_frame;
use replies::Store;
use text::{Sink, decode};

// The words of the longest pool.
const WORDS: usize = 16384;

// The characters of the longest line.
const LINE: usize = 128;

// The bytes of the longest answer.
const ANSWER: usize = 531;

// The answer to a line of characters.
fn line_answer(line: &[u8], store: &mut Store, sink: &mut Sink)
    requires { sink.old.at + 531 ≤ 2 ^ 63 }
    ensures { Served (reply (take store.old.words store.old.pool.now) line.now) (parse line.now)
        store.old sink.old store.new sink.new }
{
    if line.is_empty() {
        return;
    }
    if LINE < line.len() {
        return no_frame(sink);
    }
    let mut bytes = [0u8; 64];
    match decode(line, &mut bytes) {
        Some(n) => store.frame(&bytes[..n], sink),
        None => no_frame(sink),
    }
}

// The answer where the line ends; there is none of a line that is too long.
fn close(line: Option<&[u8]>, store: &mut Store, sink: &mut Sink)
    requires { sink.old.at + 531 ≤ 2 ^ 63 }
    ensures { Served (closed (record { pool = take store.old.words store.old.pool.now; line = shown line.entry }))
        (asked (shown line.entry))
        store.old sink.old store.new sink.new }
{
    match line {
        Some(line) => line_answer(line, store, sink),
        None => no_frame(sink),
    }
}

// The line so far: the first `digits` bytes of a buffer of 128, and more than 128 digits stand for a line that is too long.
#[derive(Drop)]
struct Line<'a> {
    bytes: &'a mut [u8],
    digits: usize,
    ghost bytes_long: { length bytes.now ≡ 128 },
}

impl Line<'_> {
    ghost use Rattle.frames.specs.Lines.{Steps, Feeds};

    // One more character; 129 digits once there are more than 128.
    fn push(&mut self, b: u8)
        ensures bytes { self.new.bytes.now ≡ set self.old.bytes.now self.old.digits b }
        ensures digits { self.new.digits ≡ min self.old.digits 128 + 1 }
        ensures same { self.new.bytes.ghost_name ≡ self.old.bytes.ghost_name }
    {
        if self.digits < LINE {
            self.bytes[self.digits] = b;
        }
        self.digits = self.digits.min(LINE) + 1;
    }

    // The characters; none for a line that is too long.
    fn text(&self) -> Option<&[u8]>
        ensures { shown result ≡ counted 128 self.now.digits self.now.bytes.now }
    {
        self.bytes.get(..self.digits)
    }

    // One byte of the input.
    fn step(&mut self, b: u8, store: &mut Store, sink: &mut Sink)
        requires { sink.old.at + 531 ≤ 2 ^ 63 }
        ensures { Steps self.old store.old sink.old b self.new store.new sink.new }
    {
        if b == b'\n' {
            close(self.text(), store, sink);
            self.digits = 0;
        } else {
            self.push(b);
        }
    }

    // The bytes of a piece, as long as the output has room for an answer; and how many were taken.
    fn feed(&mut self, piece: &[u8], store: &mut Store, sink: &mut Sink) -> usize
        requires { sink.old.at ≡ 0 }
        ensures { Feeds self.old store.old sink.old piece.now self.new store.new sink.new result }
    {
        for (i, b) in piece.iter().enumerate() {
            if sink.out.len() - sink.at < ANSWER {
                return i;
            }
            self.step(*b, store, sink);
        }
        piece.len()
    }
}

// The pool's words after a line, and the place in the output that follows its answer.
#[derive(Clone, Copy, Debug, PartialEq, Eq)]
pub struct Said {
    pub words: usize,
    pub at: usize,
}

// What is kept between two pieces besides the buffers: the pool's words, and the characters of the line so far.
#[derive(Clone, Copy, Debug, PartialEq, Eq)]
pub struct Held {
    pub words: usize,
    pub digits: usize,
}

// What is kept after a piece, how many of its bytes were taken, and how many bytes were written.
#[derive(Clone, Copy, Debug, PartialEq, Eq)]
pub struct Taken {
    pub held: Held,
    pub taken: usize,
    pub written: usize,
}

// The answer to a line, or to one that is too long, in a store and a sink of its own.
fn say(
    line: Option<&[u8]>,
    words: usize,
    pool: &mut [u32; WORDS],
    work: &mut [u32; WORDS],
    out: &mut [u8],
) -> Said
    ensures { Replied (closed (record { pool = take words pool.old; line = shown line.entry }))
        pool.old out.old 0 pool.new out.new result.words result.at
        × (work.new ≡ work_after (take words pool.old) work.old (asked (shown line.entry))) }
{
    let words = words.min(WORDS);
    let mut store = Store { pool, work, words };
    let mut sink = Sink { out, at: 0 };
    close(line, &mut store, &mut sink);
    Said {
        words: store.words,
        at: sink.at,
    }
}

// The answer to a line. The pool is the first `words` of its words, all of them where `words` is more, and none before a format.
pub fn answer(
    line: &[u8],
    words: usize,
    pool: &mut [u32; WORDS],
    work: &mut [u32; WORDS],
    out: &mut [u8; ANSWER],
) -> Said
    ensures { Replied (reply (take words pool.old) line.now)
        pool.old out.old 0 pool.new out.new result.words result.at
        × (work.new ≡ work_after (take words pool.old) work.old (parse line.now)) }
{
    say(Some(line), words, pool, work, out)
}

// Takes bytes of a piece of the input, as long as the output has room for an answer, and carries the rest of a line over.
pub fn feed(
    piece: &[u8],
    from: Held,
    line: &mut [u8; LINE],
    pool: &mut [u32; WORDS],
    work: &mut [u32; WORDS],
    out: &mut [u8],
) -> Taken
    ensures { Fed (store_of (min from.words 16384) from.digits line.old pool.old work.old) piece.now out.old
        (store_of result.held.words result.held.digits line.new pool.new work.new) out.new result.taken result.written }
{
    let words = from.words.min(WORDS);
    let mut store = Store { pool, work, words };
    let mut line = Line {
        bytes: line,
        digits: from.digits,
    };
    let mut sink = Sink { out, at: 0 };
    let taken = line.feed(piece, &mut store, &mut sink);
    Taken {
        held: Held {
            words: store.words,
            digits: line.digits,
        },
        taken,
        written: sink.at,
    }
}

// The answer to a last line without line feed.
pub fn finish(
    from: Held,
    line: &[u8; LINE],
    pool: &mut [u32; WORDS],
    work: &mut [u32; WORDS],
    out: &mut [u8],
) -> Said
    ensures { Replied (closed (stage_of (store_of from.words from.digits line.now pool.old work.old)))
        pool.old out.old 0 pool.new out.new result.words result.at
        × (work.new ≡ work_after (take from.words pool.old) work.old (asked (counted 128 from.digits line.now))) }
{
    say(line.get(..from.digits), from.words, pool, work, out)
}
