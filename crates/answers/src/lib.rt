#![tactic(auto)]

// The answer of a call as text: its number, its values, and the locations that a list's slots took.
ghost use Rattle.std.specs.Prelude.{◌≡◌, List, ℕ, [], ◌∷◌, ◌+◌, ◌≤◌, ◌^◌, length};
ghost use Rattle.kdb.specs.Lists.{gather};
ghost use Rattle.kdb.specs.Frames.{hex};
ghost use Rattle.text.specs.Puts.{Puts};
ghost use Rattle.answers.specs.Spoken.{number_in, values_in, text_of};

use kdb::Refusal;
use query::{Found, Listed};
use text::Sink;

// What a call gives where it is done.
pub trait Given {
    ghost values: { Self → List ℕ };

    // Writes each value as 8 digits; there are two at most.
    fn put(&self, sink: &mut Sink)
        requires { sink.old.at + 16 ≤ 2 ^ 63 }
        ensures text { Puts sink.old (gather (hex 8) (values self.now)) sink.new }
        ensures room { sink.new.at ≤ sink.old.at + 16 };
}

// No values.
impl Given for () {
    ghost values = { λ done. [] };

    fn put(&self, _sink: &mut Sink) {}
}

// The location that remove answers.
impl Given for u32 {
    ghost values = { λ location. location ∷ [] };

    fn put(&self, sink: &mut Sink) {
        sink.put_hex(8, *self as usize);
    }
}

// The location, and the pages read.
impl Given for Found {
    ghost values = { λ f. f.location ∷ f.reads ∷ [] };

    fn put(&self, sink: &mut Sink) {
        sink.put_hex(8, self.location as usize);
        sink.put_hex(8, self.reads);
    }
}

// The total, and the pages read.
impl Given for Listed {
    ghost values = { λ l. l.total ∷ l.reads ∷ [] };

    fn put(&self, sink: &mut Sink) {
        sink.put_hex(8, self.total);
        sink.put_hex(8, self.reads);
    }
}

// A whole answer: the number, the values, the locations and a line feed.
pub fn put_values<V: Given>(sink: &mut Sink, number: usize, given: &V, found: &[u32])
    requires { (sink.old.at + 531 ≤ 2 ^ 63) × (length found.now ≤ 64) }
    ensures text { Puts sink.old (text_of number (V.values given.now) found.now) sink.new }
    ensures room { sink.new.at ≤ sink.old.at + 531 }
{
    sink.put_hex(2, number);
    given.put(sink);
    sink.put_words(found);
    sink.put(b'\n');
}

// The answer of a call: 0 and what it gives, or the number of its refusal.
pub fn put_answer<V: Given>(sink: &mut Sink, answer: &Result<V, Refusal>, found: &[u32])
    requires { (sink.old.at + 531 ≤ 2 ^ 63) × (length found.now ≤ 64) }
    ensures text { Puts sink.old (text_of (number_in answer.now) (values_in V.values answer.now) found.now) sink.new }
    ensures room { sink.new.at ≤ sink.old.at + 531 }
{
    match answer {
        Ok(given) => put_values(sink, 0, given, found),
        Err(refusal) => put_values(sink, u32::from(*refusal) as usize, &(), found),
    }
}

// A refusal's answer: the number alone.
pub fn refuse(sink: &mut Sink, number: usize)
    requires { sink.old.at + 531 ≤ 2 ^ 63 }
    ensures text { Puts sink.old (text_of number [] []) sink.new }
    ensures room { sink.new.at ≤ sink.old.at + 531 }
{
    put_values(sink, number, &(), &[]);
}

// No frame answers FF.
pub fn no_frame(sink: &mut Sink)
    requires { sink.old.at + 531 ≤ 2 ^ 63 }
    ensures { Puts sink.old (70 ∷ 70 ∷ 10 ∷ []) sink.new }
{
    refuse(sink, 0xFF);
}
