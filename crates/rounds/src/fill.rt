// What an earlier call left in the lent memory goes, before the rounds begin.
ghost use Rattle.rounds.specs.Kept.{held, Cleared, SameMemory};

use crate::NONE;
use crate::memory::Memory;

impl Memory<'_> {
    // Nothing of an earlier call is left where this one will look, and nothing beyond is touched.
    pub(crate) fn clear(&mut self)
        ensures { Cleared self.old.codes (held self.old) (held self.new) × SameMemory self.old self.new }
    {
        let c = self.codes;
        self.round[..c].fill(0);
        self.first[..c].fill(NONE);
        self.next[..c].fill(NONE);
        self.used[..c].fill(0);
    }
}
