// The first frames of a table: what a pass over it is given.
ghost use Rattle.std.specs.Prelude.{◌≡◌, ◌+◌, ◌≤◌, min, get_or};
ghost use Rattle.rules_tables.specs.Place.{count_of};
ghost use Rattle.table_frames.specs.Kind.{kind_number};
ghost use Rattle.table_network.specs.Known.{Known, Stretch};

use table_frames::kind::Kind;
use table_frames::kinds::Kinds;

// The first n frames of a table, which have their form and refer rightly. Entry k of `from` tells how many frames of those that have their form have a kind
// below k.
#[derive(Clone, Copy)]
pub struct Front<'a> {
    pub kinds: Kinds<'a>,
    pub from: &'a [usize; 13],
    pub n: usize,
    ghost known: { Known kinds.table.now kinds.starts.now from.now n },
}

impl<'a> Front<'a> {
    // Where its frames of a kind begin and end: they stand in a row.
    pub fn row(&self, kind: Kind) -> (usize, usize)
        ensures stretch { Stretch self.now.kinds.table.now (kind_number kind) self.now.n result.0 result.1 }
        ensures end { result.1 ≡ min (get_or self.now.from.now (kind_number kind + 1) 0) self.now.n }
    {
        let k = kind.number();
        (self.from[k].min(self.n), self.from[k + 1].min(self.n))
    }

    // How many frames of a kind the whole table has.
    pub fn count(&self, kind: Kind) -> usize
        ensures { (result ≡ count_of self.now.kinds.table.now (kind_number kind)) × (result ≤ 4096) }
    {
        self.kinds.count(kind)
    }

    // Its first e frames.
    pub fn first(&self, e: usize) -> Front<'a>
        requires { e ≤ self.now.n }
        ensures { (result.kinds.table.now ≡ self.now.kinds.table.now) × (result.n ≡ e) }
    {
        Front {
            kinds: self.kinds,
            from: self.from,
            n: e,
        }
    }
}
