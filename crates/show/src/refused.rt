// A refusal, in numbers.
ghost use Rattle.std.specs.Prelude.{Some};
ghost use Rattle.table.specs.Refusals.{number_of, place_of};
ghost use Rattle.show.specs.Printed.{refusal_text};

use std::fmt;
use table::refusal::Refusal;

// Why a text has no answer, and where.
#[derive(Clone, Copy)]
pub(crate) struct Refused(pub(crate) Refusal);

impl fmt::Display for Refused {
    ghost output = { λ r. Some (refusal_text (number_of r.0) (place_of r.0)) };

    fn fmt<W: fmt::Write>(&self, f: &mut fmt::Formatter<W>) -> fmt::Result {
        let (number, place) = (self.0.number(), self.0.place());
        write!(f, "{number}\t{place}")
    }
}
