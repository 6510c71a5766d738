#![tactic(auto)]

// Digits, bytes and words of a frame's text: reading a line, and writing an answer.
ghost use Rattle.std.specs.Prelude.{◌≡◌, ◌∷◌, [], ◌+◌, ◌*◌, ◌≤◌, ◌<◌, ◌^◌, length, get_or, set, IfSome};
ghost use Rattle.kdb.specs.Lists.{gather};
ghost use Rattle.kdb.specs.Frames.{digit, bytes_of, words_of, digit_of, hex};
ghost use Rattle.text.specs.Text.{read, front, pair_of};
ghost use Rattle.text.specs.Puts.{Puts};

// The value of a hexadecimal digit, upper or lower case.
fn digit_value(b: u8) -> Option<u8>
    ensures value { read result ≡ digit b }
    ensures small { IfSome result (λ v. v < 16) }
{
    match b {
        b'0'..=b'9' => Some(b - b'0'),
        b'A'..=b'F' => Some(b - b'A' + 10),
        b'a'..=b'f' => Some(b - b'a' + 10),
        _ => None,
    }
}

// The byte of two digits.
fn pair_value(high: u8, low: u8) -> Option<u8>
    ensures { read result ≡ pair_of high low }
{
    Some(16 * digit_value(high)? + digit_value(low)?)
}

// The bytes of a line of digits, and how many; none for an odd number of digits or another character.
pub fn decode(line: &[u8], bytes: &mut [u8; 64]) -> Option<usize>
    requires { length line.now ≤ 128 }
    ensures bytes { front result bytes.new ≡ bytes_of line.now }
    ensures few { IfSome result (λ n. n ≤ 64) }
{
    let (pairs, odd) = line.as_chunks::<2>();
    if !odd.is_empty() {
        return None;
    }
    for (n, [high, low]) in pairs.iter().enumerate() {
        bytes[n] = pair_value(*high, *low)?;
    }
    Some(pairs.len())
}

// The words of the bytes, 4 each, high byte first, and how many; none for a part word.
pub fn words_of(bytes: &[u8], words: &mut [u32; 16]) -> Option<usize>
    requires { length bytes.now ≤ 63 }
    ensures words { front result words.new ≡ words_of bytes.now }
    ensures few { IfSome result (λ n. n ≤ 16) }
{
    let (fours, part) = bytes.as_chunks::<4>();
    if !part.is_empty() {
        return None;
    }
    for (n, four) in fours.iter().enumerate() {
        words[n] = u32::from_be_bytes(*four);
    }
    Some(fours.len())
}

// A digit of an answer, upper case.
fn digit_of(v: usize) -> u8
    requires { v < 16 }
    ensures { result ≡ digit_of v }
{
    if v < 10 {
        b'0' + v as u8
    } else {
        b'A' + (v as u8 - 10)
    }
}

// Sets the byte at `at`, if there is one.
pub fn put(out: &mut [u8], at: usize, b: u8)
    ensures { out.new ≡ set out.old at b }
{
    if at < out.len() {
        out[at] = b;
    }
}

// Where an answer is written: a buffer, and the place of the next byte. Past the buffer's end the place moves on, and nothing is written.
#[derive(Drop)]
pub struct Sink<'a> {
    pub out: &'a mut [u8],
    pub at: usize,
}

impl Sink<'_> {
    // One byte.
    pub fn put(&mut self, b: u8)
        requires { self.old.at < 2 ^ 63 }
        ensures { Puts self.old (b ∷ []) self.new }
    {
        put(self.out, self.at, b);
        self.at += 1;
    }

    // A number of n digits.
    pub fn put_hex(&mut self, n: usize, v: usize)
        requires { (self.old.at < 2 ^ 63) × (n ≤ 8) }
        ensures { Puts self.old (hex n v) self.new }
    {
        let mut rest = v;
        for i in (0..n).rev() {
            put(self.out, self.at + i, digit_of(rest % 16));
            rest /= 16;
        }
        self.at += n;
    }

    // Each word as 8 digits.
    pub fn put_words(&mut self, words: &[u32])
        requires { (self.old.at + 512 ≤ 2 ^ 63) × (length words.now ≤ 64) }
        ensures text { Puts self.old (gather (hex 8) words.now) self.new }
        ensures long { self.new.at ≡ self.old.at + 8 * length words.now }
    {
        for word in words {
            self.put_hex(8, *word as usize);
        }
    }
}
