// What the rounds leave, to be read alone while the codes met are marked.
ghost use Rattle.rounds.specs.Round.{running};
ghost use Rattle.rounds.specs.Room.{Room};
ghost use Rattle.rounds.specs.Used.{Linked};

// The round and the two neighbours of each code. A neighbour is of an earlier round than its code.
#[derive(Clone, Copy)]
pub(crate) struct Tree<'a> {
    pub(crate) round: &'a [u16],
    pub(crate) first: &'a [u16],
    pub(crate) next: &'a [u16],
    pub(crate) codes: usize,
    pub ghost room: { Room codes round.now first.now next.now },
    pub ghost linked: { Linked codes (running round.now first.now next.now) },
}
