// Bytes that were read and are not used yet.
ghost use Rattle.std.specs.Prelude.{◌≡◌, ◌+◌, ◌-◌, ◌≤◌, ◌↔◌, IsTrue};

// Where the bytes stand that were read and are not used yet.
#[derive(Clone, Copy)]
pub struct Unread {
    pub at: usize,
    pub end: usize,
    pub ghost ordered: { at ≤ end },
}

impl Unread {
    // The first bytes of a buffer.
    pub fn front(end: usize) -> Unread
        ensures { (result.at ≡ 0) × (result.end ≡ end) }
    {
        Unread { at: 0, end }
    }

    pub fn len(self) -> usize
        ensures { result ≡ self.end - self.at }
    {
        self.end - self.at
    }

    pub fn is_empty(self) -> bool
        ensures { IsTrue result ↔ self.at ≡ self.end }
    {
        self.at == self.end
    }

    // Those behind the first so many.
    pub fn skip(self, count: usize) -> Unread
        requires { self.at + count ≤ self.end }
        ensures { (result.at ≡ self.at + count) × (result.end ≡ self.end) }
    {
        Unread {
            at: self.at + count,
            end: self.end,
        }
    }
}
