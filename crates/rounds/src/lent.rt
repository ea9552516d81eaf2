// The memory that the rounds are lent, used in its first C places.
ghost use Rattle.rounds.specs.Room.{Room};

// One place for each code: its round and its two neighbours. C lends and reads them as numbers, so no place is an Option: round 0 is no round,
// and first and next have a number for none.
#[derive(Drop)]
pub struct Lent<'a> {
    pub round: &'a mut [u16],
    pub first: &'a mut [u16],
    pub next: &'a mut [u16],
    pub codes: usize,
    pub ghost room: { Room codes round.now first.now next.now },
}
