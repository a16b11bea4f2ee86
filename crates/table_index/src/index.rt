// Making the index.
ghost use Rattle.std.specs.Prelude.{◌≡◌, length};
ghost use Rattle.rules_tables.specs.Lawful.{Lawful};
ghost use Rattle.table_index.specs.Index.{Owners, Indexed, ByEvent, ByState, OutputPartners, index_size};

use crate::chain::{Group, chain};
use crate::indexed::IndexedNetwork;
use crate::pair::{Side, pair};
use store_words::network::Network;
use table_frames::kind::{INPUT, OUTPUT};
use table_parts::ANY;

// How many numbers an index has: one for each frame, and then those of the owners and the partners.
pub const SIZE: usize = 7424;

pub const ASSOCIATION_HEADS: usize = 4096;

pub const TRANSITION_HEADS: usize = 4608;

pub const ACTION_HEADS: usize = 5120;

pub const CONNECTION_HEADS: usize = 5632;

pub const LINK_HEADS: usize = 5888;

const OUTPUT_HEADS: usize = 6400;

pub const OUTPUT_PARTNERS: usize = 6464;

pub const VARIABLE_HEADS: usize = 6720;

pub const VARIABLE_PARTNERS: usize = 6912;

// A network of which an index can be made: it keeps the rules, and each owner has its entry.
#[derive(Clone, Copy)]
struct Indexable<'a> {
    net: Network<'a>,
    ghost lawful: { Lawful net.table.now net.shape },
    ghost owners: { Owners net.table.now net.shape },
}

impl Indexable<'_> {
    // What an event is followed by: its associations, an output's event connections, a variable's data connections.
    fn events(&self, ix: &mut [u16])
        requires { length ix.old ≡ index_size }
        ensures { ByEvent self.now.net.table.now self.now.net.shape ix.new }
    {
        let shape = self.net.shape;
        chain(
            self.net.table,
            ix,
            Group {
                first: shape.variables_end,
                n: shape.associations(),
                w: 256,
                base: ASSOCIATION_HEADS,
                owners: 512,
            },
        );
        chain(
            self.net.table,
            ix,
            Group {
                first: shape.steps_end,
                n: shape.connections(),
                w: 0,
                base: CONNECTION_HEADS,
                owners: 256,
            },
        );
        chain(
            self.net.table,
            ix,
            Group {
                first: shape.connections_end,
                n: shape.links(),
                w: 0,
                base: LINK_HEADS,
                owners: 512,
            },
        );
    }

    // What a chart state is followed by: its transitions and its actions.
    fn states(&self, ix: &mut [u16])
        requires { ByEvent self.now.net.table.now self.now.net.shape ix.old }
        ensures { ByEvent self.now.net.table.now self.now.net.shape ix.new × ByState self.now.net.table.now self.now.net.shape ix.new }
    {
        let shape = self.net.shape;
        chain(
            self.net.table,
            ix,
            Group {
                first: shape.states_end,
                n: shape.transitions(),
                w: 0,
                base: TRANSITION_HEADS,
                owners: 512,
            },
        );
        chain(
            self.net.table,
            ix,
            Group {
                first: shape.transitions_end,
                n: shape.actions(),
                w: 0,
                base: ACTION_HEADS,
                owners: 512,
            },
        );
    }

    // The partners of event inputs.
    fn outputs(&self, ix: &mut [u16])
        requires { ByEvent self.now.net.table.now self.now.net.shape ix.old × ByState self.now.net.table.now self.now.net.shape ix.old }
        ensures { ByEvent self.now.net.table.now self.now.net.shape ix.new × ByState self.now.net.table.now self.now.net.shape ix.new × OutputPartners self.now.net.table.now self.now.net.shape ix.new }
    {
        let shape = self.net.shape;
        let n = shape.outputs();
        chain(
            self.net.table,
            ix,
            Group {
                first: shape.inputs_end,
                n,
                w: 0,
                base: OUTPUT_HEADS,
                owners: 64,
            },
        );
        pair(
            self.net.table,
            ix,
            Side {
                first: shape.elements_end,
                n: shape.inputs(),
                flag: ANY,
            },
            Side {
                first: shape.inputs_end,
                n,
                flag: ANY,
            },
            OUTPUT_HEADS,
            OUTPUT_PARTNERS,
        );
    }

    // The input variables of each element, and their partners: these are found along the outputs, whose first entries are used up.
    fn variables(&self, ix: &mut [u16])
        requires { ByEvent self.now.net.table.now self.now.net.shape ix.old × ByState self.now.net.table.now self.now.net.shape ix.old × OutputPartners self.now.net.table.now self.now.net.shape ix.old }
        ensures { Indexed self.now.net.table.now self.now.net.shape ix.new }
    {
        let shape = self.net.shape;
        let n = shape.variables();
        chain(
            self.net.table,
            ix,
            Group {
                first: shape.outputs_end,
                n,
                w: 64,
                base: VARIABLE_HEADS,
                owners: 192,
            },
        );
        pair(
            self.net.table,
            ix,
            Side {
                first: shape.outputs_end,
                n,
                flag: INPUT,
            },
            Side {
                first: shape.outputs_end,
                n,
                flag: OUTPUT,
            },
            VARIABLE_HEADS + 64,
            VARIABLE_PARTNERS,
        );
    }

    // Makes the index.
    fn index(&self, ix: &mut [u16])
        requires { length ix.old ≡ index_size }
        ensures { Indexed self.now.net.table.now self.now.net.shape ix.new }
    {
        self.events(ix);
        self.states(ix);
        self.outputs(ix);
        self.variables(ix);
    }
}

impl<'a> IndexedNetwork<'a> {
    // The network with its index, which is made in `entries`.
    pub fn new(net: Network<'a>, entries: &'a mut [u16; SIZE]) -> Self
        requires { Lawful net.table.now net.shape × Owners net.table.now net.shape }
        ensures { result.net ≡ net.entry }
    {
        Indexable { net }.index(entries);
        IndexedNetwork {
            net,
            index: entries,
        }
    }
}
