#![tactic(auto)]

// A frame's bytes to its reply: the first byte decides which call is made, and its outcome is written as text.
ghost use Rattle.std.specs.Prelude.{◌≡◌, ◌∷◌, ◌+◌, ◌≤◌, ◌^◌, length, take};
ghost use Rattle.std.proofs.Math.Option.{some};
ghost use Rattle.kdb.specs.Frames.{new_of, place_of, framed, obey};
ghost use Rattle.replies.specs.Reply.{remove_of, find_of, list_of};

use answers::{no_frame, put_answer};
use index::{format, place, remove};
use kdb::Refusal;
use query::{find, list};
use text::{Sink, words_of};

// The pool, which is the first `words` words of a buffer of 16,384, and the work buffer.
#[derive(Drop)]
pub struct Store<'a> {
    pub pool: &'a mut [u32],
    pub work: &'a mut [u32],
    pub words: usize,
    ghost pool_long: { length pool.now ≡ 16384 },
    ghost work_long: { length work.now ≡ 16384 },
    ghost within: { words ≤ 16384 },
}

impl Store<'_> {
    ghost use Rattle.replies.specs.Served.{Replies, Obeys};

    // 00: K, then N in 2 bytes, high byte first.
    fn new_frame(&mut self, bytes: &[u8], sink: &mut Sink)
        requires { sink.old.at + 531 ≤ 2 ^ 63 }
        ensures { Obeys (new_of bytes.now) self.old sink.old self.new sink.new }
    {
        let [k, high, low] = bytes else {
            return no_frame(sink);
        };
        let n = usize::from(u16::from_be_bytes([*high, *low]));
        if 512 < n {
            return put_answer(sink, &Err::<(), Refusal>(Refusal::PoolLength), &[]);
        }
        let size = 32 * n;
        let formatted = format(&mut self.pool[..size], usize::from(*k));
        put_answer(sink, &formatted, &[]);
        if formatted.is_ok() {
            self.words = size;
        }
    }

    // 01: the last word is the location, those before it the point.
    fn place_frame(&mut self, words: &[u32], sink: &mut Sink)
        requires { sink.old.at + 531 ≤ 2 ^ 63 }
        ensures { Obeys (place_of words.now) self.old sink.old self.new sink.new }
    {
        let Some((location, point)) = words.split_last() else {
            return no_frame(sink);
        };
        let n = self.words;
        let placed = place(&mut self.pool[..n], &mut self.work[..n], point, *location);
        put_answer(sink, &placed, &[]);
    }

    // 02: the words are the point.
    fn remove_frame(&mut self, point: &[u32], sink: &mut Sink)
        requires { sink.old.at + 531 ≤ 2 ^ 63 }
        ensures reply { Replies (obey (take self.old.words self.old.pool.now) (remove_of point.now))
            self.old sink.old self.new sink.new }
        ensures work { self.new.work.now ≡ self.old.work.now }
    {
        let n = self.words;
        put_answer(sink, &remove(&mut self.pool[..n], point), &[]);
    }

    // 03: the words are the point.
    fn find_frame(&self, point: &[u32], sink: &mut Sink)
        requires { sink.old.at + 531 ≤ 2 ^ 63 }
        ensures { Replies (obey (take self.now.words self.now.pool.now) (find_of point.now))
            self.now sink.old self.now sink.new }
    {
        put_answer(sink, &find(&self.pool[..self.words], point), &[]);
    }

    // 04: the words are the window.
    fn list_frame(&self, window: &[u32], sink: &mut Sink)
        requires { sink.old.at + 531 ≤ 2 ^ 63 }
        ensures { Replies (obey (take self.now.words self.now.pool.now) (list_of window.now))
            self.now sink.old self.now sink.new }
    {
        let mut slots = [0u32; 64];
        let listed = list(&self.pool[..self.words], window, &mut slots);
        let shown = listed.map_or(0, |l| l.total.min(64));
        put_answer(sink, &listed, &slots[..shown]);
    }

    // 01 to 04, by the words behind the first byte: a part word is no frame.
    fn words_frame(&mut self, first: u8, bytes: &[u8], sink: &mut Sink)
        requires { (sink.old.at + 531 ≤ 2 ^ 63) × ((length bytes.now ≤ 63) × ((1 ≤ first) × (first ≤ 4))) }
        ensures { Obeys (framed (some (first ∷ bytes.now))) self.old sink.old self.new sink.new }
    {
        let mut list = [0u32; 16];
        let Some(n) = words_of(bytes, &mut list) else {
            return no_frame(sink);
        };
        let words = &list[..n];
        match first {
            1 => self.place_frame(words, sink),
            2 => self.remove_frame(words, sink),
            3 => self.find_frame(words, sink),
            4 => self.list_frame(words, sink),
            _ => no_frame(sink),
        }
    }

    // The answer to a frame's bytes: the first byte decides.
    pub fn frame(&mut self, bytes: &[u8], sink: &mut Sink)
        requires { (sink.old.at + 531 ≤ 2 ^ 63) × (length bytes.now ≤ 64) }
        ensures { Obeys (framed (some bytes.now)) self.old sink.old self.new sink.new }
    {
        let Some((first, rest)) = bytes.split_first() else {
            return no_frame(sink);
        };
        match *first {
            0 => self.new_frame(rest, sink),
            1..=4 => self.words_frame(*first, rest, sink),
            5..=255 => no_frame(sink),
        }
    }
}
