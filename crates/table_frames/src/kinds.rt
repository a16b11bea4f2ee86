// The frames of each kind, in any table.
ghost use Rattle.std.specs.Prelude.{◌≡◌, ◌≤◌, length};
ghost use Rattle.rules_tables.specs.Frame.{frames_of};
ghost use Rattle.rules_tables.specs.Place.{Starts, count_of, exists as «exists_of»};
ghost use Rattle.table_frames.specs.Kind.{kind_number};
ghost use Rattle.table_frames.specs.Placed.{Placed};

use crate::frame::kind;
use crate::kind::Kind;

// A table, and where each kind begins in it.
#[derive(Clone, Copy)]
pub struct Kinds<'a> {
    pub table: &'a [u8],
    // Entry k: how many frames have a kind below k.
    pub starts: &'a [usize; 13],
    ghost starting: { Starts table.now starts.now },
}

impl Kinds<'_> {
    // How many frames have this kind.
    pub fn count(&self, kind: Kind) -> usize
        ensures { result ≡ count_of self.now.table.now (kind_number kind) }
    {
        let k = kind.number();
        self.starts[k + 1] - self.starts[k]
    }

    // There is a frame of this kind with this id.
    pub fn exists(&self, kind: Kind, id: usize) -> bool
        ensures { result ≡ exists_of self.now.table.now (kind_number kind) id }
    {
        id < self.count(kind)
    }

    // Puts each frame of a known kind at its kind's start and its id beyond it: a table that is out of order, in order.
    pub fn put_places(&self, places: &mut [u16])
        requires { (frames_of self.now.table.now ≤ 4096) × (frames_of self.now.table.now ≤ length places.old) }
        ensures { Placed self.now.table.now places.new (frames_of self.now.table.now) × (length places.new ≡ length places.old) }
    {
        let mut next = *self.starts;
        for f in 0..self.table.len() / 12 {
            let k = kind(self.table, f);
            if k < 12 {
                places[next[k]] = f as u16;
                next[k] += 1;
            }
        }
    }
}
