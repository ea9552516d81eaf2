// The memory that a call lends, used in its first C places.
ghost use Rattle.std.specs.Prelude.{◌≤◌, length};
ghost use Rattle.rounds.specs.Room.{Room};

// One place for each code: its round, its two neighbours, and whether it is used. C lends and reads used as numbers, so a mark is 0 or 1 and no
// bool. The count of codes stands beside, and the slices are not cut to it: what is promised is of the whole slices, and would have to be
// carried over from the cut ones.
#[derive(Drop)]
pub struct Memory<'a> {
    pub round: &'a mut [u16],
    pub first: &'a mut [u16],
    pub next: &'a mut [u16],
    pub used: &'a mut [u8],
    pub codes: usize,
    pub ghost room: { Room codes round.now first.now next.now },
    pub ghost room_used: { codes ≤ length used.now },
}
