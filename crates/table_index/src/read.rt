// Reading the index: the walks through the frames of an owner, and the partners.
ghost use Rattle.std.specs.Prelude.{◌≡◌, ◌<◌, ◌≤◌};
ghost use Rattle.rules_tables.specs.Kind.{input, output};
ghost use Rattle.rules_tables.specs.Ids.{first_input, first_output, first_variable, first_association, first_transition, first_action, first_connection, first_link, inputs as «inputs_of», outputs as «outputs_of», variables as «variables_of», associations as «associations_of», transitions as «transitions_of», actions as «actions_of», connections as «connections_of», links as «links_of»};
ghost use Rattle.rules_tables.specs.Owned.{any, belongs};
ghost use Rattle.table_index.specs.Leads.{Leads};
ghost use Rattle.table_index.specs.Pair.{partner_at};
ghost use Rattle.table_index.specs.Index.{Follows};
ghost use Rattle.table_index.specs.Walk.{Begins};
ghost use Rattle.table_index.specs.Walking.{Listed};

use crate::index::{
    ACTION_HEADS, ASSOCIATION_HEADS, CONNECTION_HEADS, LINK_HEADS, OUTPUT_PARTNERS,
    TRANSITION_HEADS, VARIABLE_HEADS, VARIABLE_PARTNERS,
};
use crate::indexed::IndexedNetwork;
use crate::pair::Side;
use crate::walk::Walk;
use table_frames::kind::INPUT;
use table_parts::ANY;

impl<'a> IndexedNetwork<'a> {
    // The first frame of an owner on this side, or their number where it has none. The entries of so many owners begin at `base`.
    #[inline]
    fn first(&self, side: Side, base: usize, owners: usize, owner: usize) -> usize
        requires { Listed self.now.net.table.now self.now.index.now side.first side.n side.flag base owners owner }
        ensures { Leads (belongs self.now.net.table.now side.first side.flag owner) 0 result side.n }
    {
        if owner < owners {
            usize::from(self.index[base + owner])
        } else {
            side.n
        }
    }

    // The frames of an owner on this side, by id.
    #[inline]
    fn walk(&self, side: Side, base: usize, owners: usize, owner: usize) -> Walk<'a>
        requires { Listed self.now.net.table.now self.now.index.now side.first side.n side.flag base owners owner }
        ensures { Begins self.now.net.table.now side.first side.n side.flag owner result }
    {
        Walk {
            table: self.net.table,
            index: self.index,
            first: side.first,
            end: side.n,
            flag: side.flag,
            owner,
            at: self.first(side, base, owners, owner),
        }
    }

    // The connections of event output o, by id.
    pub fn connections_of(&self, o: usize) -> Walk<'a>
        ensures { Begins self.now.net.table.now (first_connection self.now.net.shape) (connections_of self.now.net.shape) any o result }
    {
        let side = Side {
            first: self.net.shape.steps_end,
            n: self.net.shape.connections(),
            flag: ANY,
        };
        self.walk(side, CONNECTION_HEADS, 256, o)
    }

    // The links of output variable v, by id.
    pub fn links_of(&self, v: usize) -> Walk<'a>
        ensures { Begins self.now.net.table.now (first_link self.now.net.shape) (links_of self.now.net.shape) any v result }
    {
        let side = Side {
            first: self.net.shape.connections_end,
            n: self.net.shape.links(),
            flag: ANY,
        };
        self.walk(side, LINK_HEADS, 512, v)
    }

    // The associations of event e under flag g, by id. Those under flag 1 have their entries behind those under flag 0; under flag 2 there are none.
    pub fn associations_of(&self, g: usize, e: usize) -> Walk<'a>
        requires { g ≤ 2 }
        ensures { Begins self.now.net.table.now (first_association self.now.net.shape) (associations_of self.now.net.shape) g e result }
    {
        let side = Side {
            first: self.net.shape.variables_end,
            n: self.net.shape.associations(),
            flag: g,
        };
        let owners = if g < 2 { 256 } else { 0 };
        self.walk(side, ASSOCIATION_HEADS + 256 * g, owners, e)
    }

    // The input variables of element el, by id.
    pub fn variables_of(&self, el: usize) -> Walk<'a>
        ensures { Begins self.now.net.table.now (first_variable self.now.net.shape) (variables_of self.now.net.shape) input el result }
    {
        let side = Side {
            first: self.net.shape.outputs_end,
            n: self.net.shape.variables(),
            flag: INPUT,
        };
        self.walk(side, VARIABLE_HEADS, 64, el)
    }

    // The first transition of chart state q, or their number where it has none.
    pub fn first_transition(&self, q: usize) -> usize
        ensures { Leads (belongs self.now.net.table.now (first_transition self.now.net.shape) any q) 0 result (transitions_of self.now.net.shape) }
    {
        let side = Side {
            first: self.net.shape.states_end,
            n: self.net.shape.transitions(),
            flag: ANY,
        };
        self.first(side, TRANSITION_HEADS, 512, q)
    }

    // The next one of the same state, or their number.
    pub fn next_transition(&self, j: usize) -> usize
        requires { j < transitions_of self.now.net.shape }
        ensures { Follows self.now.net.table.now (first_transition self.now.net.shape) any (transitions_of self.now.net.shape) j result }
    {
        usize::from(self.index[self.net.shape.states_end + j])
    }

    // The first action of chart state q, or their number where it has none.
    pub fn first_action(&self, q: usize) -> usize
        ensures { Leads (belongs self.now.net.table.now (first_action self.now.net.shape) any q) 0 result (actions_of self.now.net.shape) }
    {
        let side = Side {
            first: self.net.shape.transitions_end,
            n: self.net.shape.actions(),
            flag: ANY,
        };
        self.first(side, ACTION_HEADS, 512, q)
    }

    // The next one of the same state, or their number.
    pub fn next_action(&self, j: usize) -> usize
        requires { j < actions_of self.now.net.shape }
        ensures { Follows self.now.net.table.now (first_action self.now.net.shape) any (actions_of self.now.net.shape) j result }
    {
        usize::from(self.index[self.net.shape.transitions_end + j])
    }

    // The partner of event input i: an event output.
    pub fn output_partner(&self, i: usize) -> usize
        requires { i < inputs_of self.now.net.shape }
        ensures { result ≡ partner_at self.now.net.table.now (first_input self.now.net.shape) any (first_output self.now.net.shape) (outputs_of self.now.net.shape) any i }
    {
        usize::from(self.index[OUTPUT_PARTNERS + i])
    }

    // The partner of variable v: an output variable.
    pub fn variable_partner(&self, v: usize) -> usize
        requires { v < variables_of self.now.net.shape }
        ensures { result ≡ partner_at self.now.net.table.now (first_variable self.now.net.shape) input (first_variable self.now.net.shape) (variables_of self.now.net.shape) output v }
    {
        usize::from(self.index[VARIABLE_PARTNERS + v])
    }
}
