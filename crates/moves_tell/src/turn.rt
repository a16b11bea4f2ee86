// A turn of a run: the move that comes next.
ghost use Rattle.moves_tell.specs.Telling.{Telling};

use rules_moves::Next;
use rules_store::Running;
use table_index::indexed::IndexedNetwork;

// The move `next` comes next in this store at this time, r being the running block.
#[derive(Clone, Copy)]
pub struct Turn<'a> {
    pub ix: &'a IndexedNetwork<'a>,
    pub store: &'a [u32],
    pub time: u32,
    pub r: Running,
    pub next: Next,
    pub ghost telling: { Telling ix.now.net.table.now ix.now.net.shape time r next store.now },
}
