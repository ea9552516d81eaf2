// What is left of a text that is read from its front. A method takes its part off the front, or gives none where none stands there.
ghost use Rattle.std.specs.Prelude.{◌≡◌, ◌<◌, List, ℕ, [], IfSome, IfNone};
ghost use Rattle.table.specs.Decides.{Decides};
ghost use Rattle.reader.specs.Parts.{Takes, byte_in, digit_in, number_in, field_in, word_in};

use std::marker::Model;
use table::Kind;

// Words are byte strings: a form that the specification names. `isnot` stands before `is`, its own beginning.
const WORDS: [(&[u8], Kind); 8] = [
    (b"yes", Kind::Yes),
    (b"no", Kind::No),
    (b"isnot", Kind::Isnot),
    (b"is", Kind::Is),
    (b"any", Kind::Any),
    (b"all", Kind::All),
    (b"go", Kind::Go),
    (b"stop", Kind::Stop),
];

#[derive(Drop)]
pub struct Rest<'a> {
    bytes: &'a [u8],
}

impl<'a> Model for Rest<'a> {
    ghost Value = { List ℕ };

    ghost view = { λ r. r.bytes.now };
}

impl<'a> Rest<'a> {
    pub fn of(bytes: &'a [u8]) -> Rest<'a>
        ensures { result ≡ bytes.now }
    {
        Rest { bytes }
    }

    pub fn is_empty(&self) -> bool
        ensures { Decides result (self.now ≡ []) }
    {
        self.bytes.is_empty()
    }

    pub fn byte(&mut self, byte: u8) -> Option<u8>
        ensures takes { Takes self.old self.new result (byte_in byte self.old) }
        ensures stays { IfNone result (self.new ≡ self.old) }
    {
        let (front, rest) = self.bytes.split_first()?;
        if *front != byte {
            return None;
        }
        self.bytes = rest;
        Some(byte)
    }

    // A digit as the number that it is.
    pub fn digit(&mut self) -> Option<u8>
        ensures takes { Takes self.old self.new result (digit_in self.old) }
        ensures small { IfSome result (λ d. d < 10) }
        ensures stays { IfNone result (self.new ≡ self.old) }
    {
        let (front, rest) = self.bytes.split_first()?;
        if !front.is_ascii_digit() {
            return None;
        }
        self.bytes = rest;
        Some(*front - b'0')
    }

    // One or two digits; a zero is one digit, so that none leads.
    pub fn number(&mut self) -> Option<u8>
        ensures takes { Takes self.old self.new result (number_in self.old) }
        ensures small { IfSome result (λ n. n < 100) }
        ensures stays { IfNone result (self.new ≡ self.old) }
    {
        let first = self.digit()?;
        if first == 0 {
            return Some(0);
        }
        let Some(second) = self.digit() else {
            return Some(first);
        };
        Some(first * 10 + second)
    }

    // A tab and a number.
    pub fn field(&mut self) -> Option<u8>
        ensures takes { Takes self.old self.new result (field_in self.old) }
        ensures stays { IfNone result (self.new ≡ self.old) }
    {
        let mut rest = Rest::of(self.bytes);
        rest.byte(b'\t')?;
        let number = rest.number()?;
        self.bytes = rest.bytes;
        Some(number)
    }

    // The kind whose word stands at the front.
    pub(crate) fn kind(&mut self) -> Option<Kind>
        ensures takes { Takes self.old self.new result (word_in self.old) }
        ensures stays { IfNone result (self.new ≡ self.old) }
    {
        for (word, kind) in WORDS {
            if let Some(rest) = self.bytes.strip_prefix(word) {
                self.bytes = rest;
                return Some(kind);
            }
        }
        None
    }
}
