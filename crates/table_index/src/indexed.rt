// A network with its index.
ghost use Rattle.table_index.specs.Index.{Indexed};

use crate::index::SIZE;
use store_words::network::Network;

// A network, and where the frames of each owner are.
#[derive(Clone, Copy)]
pub struct IndexedNetwork<'a> {
    pub net: Network<'a>,
    pub index: &'a [u16; SIZE],
    pub ghost indexed: { Indexed net.table.now net.shape index.now },
}
