// The second half: an accepted table and the lent memory.
ghost use Rattle.std.specs.Prelude.{◌≡◌};
ghost use Rattle.meaning.specs.Code.{codes};
ghost use Rattle.meaning.specs.Outcome.{Accepted};
ghost use Rattle.table.specs.Rows.{table_in};
ghost use Rattle.codes.specs.Layout.{InOrder};
ghost use Rattle.rounds.specs.Kept.{held, SameMemory};
ghost use Rattle.rounds.specs.Found.{Answered};

use codes::layout::Layout;
use codes::looks::Looks;
use codes::parts::Parts;
use rounds::Found;
use rounds::memory::Memory;
use table::Row;

// Lays the table out, and searches.
pub fn search_rows<'a>(rows: &'a [Row], order: &'a [u8], memory: &mut Memory) -> Found
    requires { Accepted (table_in rows.now) × InOrder rows.now order.now × (memory.old.codes ≡ codes (table_in rows.now)) }
    ensures { Answered (table_in rows.now) result (held memory.old) (held memory.new) × SameMemory memory.old memory.new }
{
    let look = counts::look_rows_of(rows);
    let places = counts::places_of(rows);
    let parts = Parts {
        m: counts::looks_of(rows),
    };
    let looks = Looks {
        rows,
        look: &look,
        parts,
    };
    let layout = Layout {
        looks,
        places: &places,
        order,
    };
    rounds::search(layout, memory)
}
