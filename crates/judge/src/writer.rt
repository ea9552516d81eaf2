// Lent bytes that are filled from the front.
ghost use Rattle.std.specs.Prelude.{◌≡◌, cond, [], ◌∷◌, ◌+◌, ◌<◌};
ghost use Rattle.sheets.specs.Written.{numeral};
ghost use Rattle.judge.specs.Output.{verdict_line};
ghost use Rattle.judge.specs.Writing.{digit_from, Room, Wrote};

// The next byte goes to `at`, and no slice shrinks: what was written is promised of the whole memory. That there is room stays a clause, since it
// is of the bytes about to be written. Numerals are made by hand: `write!` answers an error, which can't come here and would have to be proved away.
#[derive(Drop)]
pub(crate) struct Writer<'a> {
    bytes: &'a mut [u8],
    at: usize,
}

impl<'a> Writer<'a> {
    pub(crate) fn new(bytes: &'a mut [u8]) -> Writer<'a>
        ensures same { result.bytes.ghost_name ≡ bytes.entry.ghost_name }
        ensures start { (result.at ≡ 0) × (result.bytes.now ≡ bytes.old) }
    {
        Writer { bytes, at: 0 }
    }

    pub(crate) fn written(&self) -> usize
        ensures { result ≡ self.now.at }
    {
        self.at
    }

    // A line's number and its digit.
    pub(crate) fn line(&mut self, i: usize, holds: bool)
        requires { (i < 1000) × Room self.old (verdict_line i (cond holds 1 0)) }
        ensures { Wrote self.old (verdict_line i (cond holds 1 0)) self.new }
    {
        self.numeral(i);
        self.byte(b'\t');
        self.digit(usize::from(holds));
        self.byte(b'\n');
    }

    // A number below 1,000 with no leading zero.
    #[tactic(auto, using(crate::proofs::Verdicts::numeral_room))]
    fn numeral(&mut self, i: usize)
        requires { (i < 1000) × Room self.old (numeral i) }
        ensures { Wrote self.old (numeral i) self.new }
    {
        self.digit_from(100, i);
        self.digit_from(10, i);
        self.digit(i % 10);
    }

    // The digit of a place, which a number has that reaches it.
    fn digit_from(&mut self, place: usize, i: usize)
        requires { (0 < place) × Room self.old (digit_from place i) }
        ensures { Wrote self.old (digit_from place i) self.new }
    {
        if place <= i {
            self.digit(i / place % 10);
        }
    }

    fn digit(&mut self, digit: usize)
        requires { (digit < 10) × Room self.old ((48 + digit) ∷ []) }
        ensures { Wrote self.old ((48 + digit) ∷ []) self.new }
    {
        self.byte(b'0' + digit as u8);
    }

    fn byte(&mut self, byte: u8)
        requires { Room self.old (byte ∷ []) }
        ensures { Wrote self.old (byte ∷ []) self.new }
    {
        self.bytes[self.at] = byte;
        self.at += 1;
    }
}
