// The shapes of elements.
ghost use Rattle.std.specs.Prelude.{◌≡◌, true, ◌≤◌};
ghost use Rattle.rules_walks.specs.All.{all_to};
ghost use Rattle.rules_walks.specs.Held.{held_to};
ghost use Rattle.rules_tables.specs.Form.{form_ok};
ghost use Rattle.rules_tables.specs.Shapes.{shape_ok};

use crate::element::Element;
use crate::front::Front;
use crate::parts::count_parts;
use table_frames::frame::flag;
use table_frames::kind::Kind;

// How many frames of the first n come before the first element of a wrong shape; an element's id is its frame. The first `formed` frames have their form.
pub fn shapes_end(front: &Front, formed: usize) -> usize
    requires { all_to (form_ok front.now.kinds.table.now) formed ≡ true }
    ensures { (result ≡ held_to (shape_ok front.now.kinds.table.now) front.now.n) × (result ≤ front.now.n) }
{
    let t = front.kinds.table;
    let mut tally = [0u16; 384];
    count_parts(&front.kinds, &mut tally, formed);
    let (lo, hi) = front.row(Kind::Element);
    for f in lo..hi {
        let element = Element {
            table: t,
            id: f,
            tally: &tally,
        };
        if !element.shape_as(flag(t, f)) {
            return f;
        }
    }
    front.n
}
