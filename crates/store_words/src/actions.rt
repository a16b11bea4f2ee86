// The actions of a state, by number.
ghost use Rattle.std.specs.Prelude.{◌≡◌};
ghost use Rattle.rules_tables.specs.Actions.{action_of};
ghost use Rattle.table_parts.specs.Found.{found_of};

use crate::network::Network;
use table_parts::{ANY, nth};

impl Network<'_> {
    // The k-th action of state q, from 1.
    pub fn action_of(&self, q: usize, k: usize) -> Option<usize>
        ensures { result ≡ found_of (action_of self.now.table.now self.now.shape q k) }
    {
        if k == 0 {
            return None;
        }
        let shape = self.shape;
        nth(
            self.table,
            shape.transitions_end,
            shape.actions(),
            ANY,
            q,
            k - 1,
        )
    }
}
