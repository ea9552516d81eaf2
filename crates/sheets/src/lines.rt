// One line of a sheet: its name, its two links and its line feed.
ghost use Rattle.std.specs.Prelude.{◌≡◌, ◌<◌, Some};
ghost use Rattle.reader.specs.Parts.{taken, Takes};
ghost use Rattle.sheets.specs.Parts.{third, link_in, field_in, name_in, line_in};

use crate::Line;
use reader::rest::Rest;
use table::Table;

#[tactic(auto, unfolding(crate::specs::Parts::line_in))]
pub(crate) fn read_line(rest: &mut Rest) -> Option<Line>
    ensures { Takes rest.old rest.new result (line_in rest.old) }
{
    let name = read_name(rest)?;
    let first = read_field(rest)?;
    let next = read_field(rest)?;
    rest.byte(b'\n')?;
    Some(Line { name, first, next })
}

fn read_name(rest: &mut Rest) -> Option<u8>
    ensures { Takes rest.old rest.new result (name_in rest.old) }
{
    rest.number().filter(|name| *name < Table::NAMES)
}

// A tab and a link.
fn read_field(rest: &mut Rest) -> Option<Option<u16>>
    ensures { Takes rest.old rest.new result (field_in rest.old) }
{
    rest.byte(b'\t')?;
    read_link(rest)
}

// A line's number, or `-` for none.
fn read_link(rest: &mut Rest) -> Option<Option<u16>>
    ensures { Takes rest.old rest.new result (link_in rest.old) }
{
    if rest.byte(b'-').is_some() {
        return Some(None);
    }
    let n = rest.number()?;
    Some(Some(read_third(rest, n)))
}

// The digit after two others, where there is one.
fn read_third(rest: &mut Rest, n: u8) -> u16
    requires { n < 100 }
    ensures { third n rest.old ≡ taken (Some result) rest.new }
{
    let two = u16::from(n);
    if two < 10 {
        return two;
    }
    rest.digit()
        .map_or(two, |third| two * 10 + u16::from(third))
}
