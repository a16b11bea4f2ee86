// The check of a table, exact for every byte slice.
#![tactic(auto)]

ghost use Rattle.std.specs.Prelude.{◌≡◌, true, ◌≤◌, get_or};
ghost use Rattle.rules_walks.specs.All.{all_to};
ghost use Rattle.rules_walks.specs.Held.{held_to};
ghost use Rattle.rules_tables.specs.Frame.{frames_of};
ghost use Rattle.rules_tables.specs.Place.{Starts};
ghost use Rattle.rules_tables.specs.Form.{form_ok};
ghost use Rattle.rules_tables.specs.Reference.{refers_ok};
ghost use Rattle.rules_tables.specs.Judge.{judge, judged, scan_to, answer, shape_of, length_ok, number, frame, refusal_number, faulty_frame};
ghost use Rattle.table_frames.specs.StartsTo.{StartsTo};

use rules_tables::{Refusal, Shape};
use table_frames::form::formed_starts;
use table_frames::frames::Frames;
use table_frames::kinds::Kinds;
use table_frames::place::starts;
use table_network::network_end;
use table_references::references_end;

// The answer is the verdict of document 01 on the table, and of an accepted table its shape.
pub fn check(t: &[u8]) -> Result<Shape, Refusal>
    ensures { (result ≡ judged t.now) × (refusal_number result ≡ number (judge t.now)) × (faulty_frame result ≡ frame (judge t.now)) }
{
    if length_ok(t) {
        scan(t)
    } else {
        Err(Refusal {
            number: 1,
            frame: 0,
        })
    }
}

fn length_ok(t: &[u8]) -> bool
    ensures { result ≡ length_ok t.now }
{
    let n = t.len();
    n != 0 && n % 12 == 0 && n <= 49152
}

// Where each kind begins in the whole table; `from` has it for the frames before the first that lacks its form.
fn whole_starts(t: &[u8], from: &[usize; 13]) -> [usize; 13]
    requires { (frames_of t.now ≤ 4096) × StartsTo t.now (get_or from.now 12 0) from.now × (get_or from.now 12 0 ≤ frames_of t.now) }
    ensures { Starts t.now result }
{
    if from[12] < t.len() / 12 {
        starts(t)
    } else {
        *from
    }
}

// `references_end` of a table that may be out of order: its frames are first put in order by kind. Only such a table pays for that.
fn placed_references_end(kinds: &Kinds, n: usize) -> usize
    requires { (frames_of kinds.now.table.now ≤ 4096) × (n ≤ frames_of kinds.now.table.now) × (all_to (form_ok kinds.now.table.now) n ≡ true) }
    ensures { result ≡ held_to (refers_ok kinds.now.table.now) n }
{
    let mut places = [0u16; 4096];
    kinds.put_places(&mut places);
    let frames = Frames {
        kinds: *kinds,
        places: &places,
    };
    references_end(&frames, n)
}

// `references_end` of the first n frames, which have their form. Where these are all, the table is in order.
fn referring_end(kinds: &Kinds, n: usize) -> usize
    requires { (frames_of kinds.now.table.now ≤ 4096) × (n ≤ frames_of kinds.now.table.now) × (all_to (form_ok kinds.now.table.now) n ≡ true) }
    ensures { result ≡ held_to (refers_ok kinds.now.table.now) n }
{
    if n < kinds.table.len() / 12 {
        return placed_references_end(kinds, n);
    }
    let frames = Frames {
        kinds: *kinds,
        places: &[],
    };
    references_end(&frames, n)
}

// Three passes, each over the frames that the one before let through: form, references, network rules.
// Where a later pass stops earlier its frame is the lowest faulty one, and has no lower number.
fn scan(t: &[u8]) -> Result<Shape, Refusal>
    requires { frames_of t.now ≤ 4096 }
    ensures { result ≡ answer (scan_to t.now (frames_of t.now)) (shape_of t.now) }
{
    let from = formed_starts(t);
    let formed = from[12];
    let at = whole_starts(t, &from);
    let kinds = Kinds {
        table: t,
        starts: &at,
    };
    let referring = referring_end(&kinds, formed);
    let ruled = network_end(&kinds, &from, formed, referring);
    if ruled < referring {
        return Err(Refusal {
            number: 4,
            frame: ruled,
        });
    }
    if referring < formed {
        return Err(Refusal {
            number: 3,
            frame: referring,
        });
    }
    if formed < t.len() / 12 {
        return Err(Refusal {
            number: 2,
            frame: formed,
        });
    }
    Ok(shape_at(&kinds))
}

fn shape_at(kinds: &Kinds) -> Shape
    ensures { result ≡ shape_of kinds.now.table.now }
{
    let at = kinds.starts;
    Shape {
        elements_end: at[2],
        inputs_end: at[3],
        outputs_end: at[4],
        variables_end: at[5],
        associations_end: at[6],
        states_end: at[7],
        transitions_end: at[8],
        actions_end: at[9],
        steps_end: at[10],
        connections_end: at[11],
        links_end: at[12],
    }
}
