// The listing of a tree that was found: a line for each of its codes.
ghost use Rattle.std.specs.Prelude.{Some};
ghost use Rattle.show.specs.Printed.{line_text, neighbour_text};

use std::io::Write;
use std::num::NonZeroUsize;
use std::{fmt, io};

// The lent memory once a tree is found, and how many codes a name has. Four slices and not one of lines, since C lends four.
#[derive(Clone, Copy)]
pub(crate) struct Listing<'a> {
    pub(crate) round: &'a [u16],
    pub(crate) first: &'a [u16],
    pub(crate) next: &'a [u16],
    pub(crate) used: &'a [u8],
    pub(crate) width: NonZeroUsize,
}

impl Listing<'_> {
    // One line for each used code, by round and then by code.
    pub(crate) fn write<W: Write>(&self, out: &mut W, height: u16) -> io::Result<()> {
        for round in 1..=height {
            self.write_round(out, round)?;
        }
        Ok(())
    }

    // The used codes of a round, by code.
    fn write_round<W: Write>(&self, out: &mut W, round: u16) -> io::Result<()> {
        let entered = self.round.iter().zip(self.used);
        let beside = self.first.iter().zip(self.next);
        for (code, ((k, used), (first, next))) in entered.zip(beside).enumerate() {
            if *used != 0 && *k == round {
                let line = Line {
                    code,
                    name: code / self.width,
                    first: Neighbour(*first),
                    next: Neighbour(*next),
                };
                writeln!(out, "{line}")?;
            }
        }
        Ok(())
    }
}

// A used code with its name and its neighbours.
#[derive(Clone, Copy)]
struct Line {
    code: usize,
    name: usize,
    first: Neighbour,
    next: Neighbour,
}

impl fmt::Display for Line {
    ghost output = { λ l. Some (line_text l.code l.name l.first.0 l.next.0) };

    fn fmt<W: fmt::Write>(&self, f: &mut fmt::Formatter<W>) -> fmt::Result {
        let Line {
            code,
            name,
            first,
            next,
        } = *self;
        write!(f, "{code}\t{name}\t{first}\t{next}")
    }
}

// A code, or `-` where there is none.
#[derive(Clone, Copy)]
struct Neighbour(u16);

impl fmt::Display for Neighbour {
    ghost output = { λ n. Some (neighbour_text n.0) };

    fn fmt<W: fmt::Write>(&self, f: &mut fmt::Formatter<W>) -> fmt::Result {
        match self.0 {
            rounds::NONE => f.write_str("-"),
            code => write!(f, "{code}"),
        }
    }
}
