// Text put into a buffer, piece behind piece.
#![tactic(auto)]

ghost use Rattle.std.specs.Prelude.{◌≡◌, [], ◌∷◌, ◌+◌, ◌≤◌, ◌<◌, length, take};

use itoa::Buffer;

// The buffer, and how many bytes of text stand at its front.
#[derive(Drop)]
pub struct Text<'a> {
    pub buffer: &'a mut [u8],
    pub used: usize,
    pub ghost inside: { used ≤ length buffer.now },
}

impl<'a> Text<'a> {
    ghost use Rattle.text.specs.Texts.{PutBy, numeral, long_numeral};

    // The text that stands there.
    pub fn written(&self) -> &[u8]
        ensures { result.now ≡ take self.now.used self.now.buffer.now }
    {
        &self.buffer[..self.used]
    }

    // Room for so many bytes more.
    pub fn room(&self) -> usize
        ensures { self.now.used + result ≡ length self.now.buffer.now }
    {
        self.buffer.len() - self.used
    }

    pub fn put_byte(&mut self, byte: u8)
        requires { self.old.used < length self.old.buffer.now }
        ensures { PutBy self.old (byte ∷ []) self.new }
    {
        self.buffer[self.used] = byte;
        self.used += 1;
    }

    pub fn put_text(&mut self, text: &[u8])
        requires { self.old.used + length text.now ≤ length self.old.buffer.now }
        ensures { PutBy self.old text.now self.new }
    {
        let end = self.used + text.len();
        self.buffer[self.used..end].copy_from_slice(text);
        self.used = end;
    }

    // A number in decimal: one of 16 bits has at most five digits.
    pub fn put_number(&mut self, n: u16)
        requires { self.old.used + 5 ≤ length self.old.buffer.now }
        ensures { PutBy self.old (numeral n) self.new × (self.new.used ≤ self.old.used + 5) }
    {
        let mut digits = Buffer::new();
        self.put_text(digits.format(n).as_bytes());
    }

    // One of 64 bits has at most twenty.
    pub fn put_long(&mut self, long: u64)
        requires { self.old.used + 20 ≤ length self.old.buffer.now }
        ensures { PutBy self.old (long_numeral long) self.new × (self.new.used ≤ self.old.used + 20) }
    {
        let mut digits = Buffer::new();
        self.put_text(digits.format(long).as_bytes());
    }
}
