// The frames of any table by kind and id.
ghost use Rattle.std.specs.Prelude.{◌≡◌, ◌<◌};
ghost use Rattle.rules_tables.specs.Frame.{frames_of};
ghost use Rattle.rules_tables.specs.Place.{count_of, owner_of, flag_of, owned_by, sort_is};
ghost use Rattle.rules_tables.specs.Place.{place as «place_of», exists as «exists_of»};
ghost use Rattle.table_frames.specs.Kind.{kind_number};
ghost use Rattle.table_frames.specs.Placed.{Located};

use crate::frame::{field, flag};
use crate::kind::Kind;
use crate::kinds::Kinds;

// A table, where each kind begins in it, and the places of its frames in order; there are no places where the table is in order.
#[derive(Clone, Copy)]
pub struct Frames<'a> {
    pub kinds: Kinds<'a>,
    pub places: &'a [u16],
    ghost located: { Located kinds.table.now places.now },
}

impl Frames<'_> {
    // There is a frame of this kind with this id.
    pub fn exists(&self, kind: Kind, id: usize) -> bool
        ensures { result ≡ exists_of self.now.kinds.table.now (kind_number kind) id }
    {
        self.kinds.exists(kind, id)
    }

    // The frame of this kind with this id.
    pub fn place(&self, kind: Kind, id: usize) -> usize
        requires { id < count_of self.now.kinds.table.now (kind_number kind) }
        ensures { (result ≡ place_of self.now.kinds.table.now (kind_number kind) id) × (result < frames_of self.now.kinds.table.now) }
    {
        // The sum fits, since a table does.
        let _table = self.kinds.table;
        let p = self.kinds.starts[kind.number()] + id;
        if self.places.is_empty() {
            p
        } else {
            usize::from(self.places[p])
        }
    }

    // The element that it belongs to.
    pub fn owner(&self, kind: Kind, id: usize) -> usize
        requires { id < count_of self.now.kinds.table.now (kind_number kind) }
        ensures { (result ≡ owner_of self.now.kinds.table.now (kind_number kind) id) × (result < 65536) }
    {
        field(self.kinds.table, self.place(kind, id), 0)
    }

    // Its flag.
    pub fn flag_of(&self, kind: Kind, id: usize) -> usize
        requires { id < count_of self.now.kinds.table.now (kind_number kind) }
        ensures { result ≡ flag_of self.now.kinds.table.now (kind_number kind) id }
    {
        flag(self.kinds.table, self.place(kind, id))
    }

    // It exists and is of element el.
    pub fn owned(&self, kind: Kind, id: usize, el: usize) -> bool
        ensures { result ≡ owned_by self.now.kinds.table.now (kind_number kind) id el }
    {
        self.exists(kind, id) && self.owner(kind, id) == el
    }

    // There is an element el, and it is of this sort.
    pub fn sort_is(&self, el: usize, sort: usize) -> bool
        ensures { result ≡ sort_is self.now.kinds.table.now el sort }
    {
        self.exists(Kind::Element, el) && self.flag_of(Kind::Element, el) == sort
    }
}
