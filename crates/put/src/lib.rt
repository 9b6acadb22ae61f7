// A writer puts bytes, texts and numbers into a lent slice, one behind the other. Bytes past the end of the slice are
// dropped, and the place counts on.
#![tactic(auto)]

ghost use Rattle.std.specs.Prelude.{◌≡◌, [], ◌∷◌};
ghost use Rattle.rules.specs.Program.Text.{digits, decimal};
ghost use Rattle.put.specs.Put.{Put, Room};

/// A lent slice, and the place in it where the next byte goes.
#[derive(Debug, Drop)]
pub struct Writer<'a> {
    out: &'a mut [u8],
    at: usize,
}

impl<'a> Writer<'a> {
    /// At the front of a slice.
    pub fn new(out: &'a mut [u8]) -> Writer<'a>
        ensures same { result.out.ghost_name ≡ out.entry.ghost_name }
        ensures bytes { result.out.now ≡ out.old }
        ensures place { result.at ≡ 0 }
    {
        Writer::at(out, 0)
    }

    /// At any place of a slice, or past its end.
    pub fn at(out: &'a mut [u8], at: usize) -> Writer<'a>
        ensures same { result.out.ghost_name ≡ out.entry.ghost_name }
        ensures bytes { result.out.now ≡ out.old }
        ensures place { result.at ≡ at }
    {
        Writer { out, at }
    }

    /// The place behind what was put.
    pub fn place(&self) -> usize
        ensures { result ≡ self.now.at }
    {
        self.at
    }

    /// One byte.
    pub fn byte(&mut self, byte: u8)
        requires { Room self.old (byte ∷ []) }
        ensures { Put self.old (byte ∷ []) self.new }
    {
        if self.at < self.out.len() {
            self.out[self.at] = byte;
        }
        self.at += 1;
    }

    /// The bytes of another slice.
    pub fn text(&mut self, text: &[u8])
        requires { Room self.old text.now }
        ensures { Put self.old text.now self.new }
    {
        if self.out.len() <= self.at {
            self.at += text.len();
            return;
        }
        // Kept: no `copy_from_slice`, for which the archive would call `memmove`; and it takes as long
        for byte in text {
            self.byte(*byte);
        }
    }

    /// The digits of `n`, the last one after all the others.
    pub fn digits(&mut self, n: u64)
        requires { Room self.old (digits n) }
        ensures { Put self.old (digits n) self.new }
    {
        if n < 10 {
            return self.byte(b'0' + n as u8);
        }
        self.digits(n / 10);
        self.byte(b'0' + (n % 10) as u8);
    }

    /// A number in decimal, the least one of 64 bits too.
    pub fn number(&mut self, n: i64)
        requires { Room self.old (decimal n) }
        ensures { Put self.old (decimal n) self.new }
    {
        if n < 0 {
            self.byte(b'-');
        }
        self.digits(n.unsigned_abs());
    }
}
