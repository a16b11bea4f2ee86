// The actions of a state, by number, along the index.
ghost use Rattle.std.specs.Prelude.{◌≡◌};
ghost use Rattle.rules_tables.specs.Actions.{action_of};
ghost use Rattle.table_parts.specs.Found.{found_of};

use crate::indexed::IndexedNetwork;

impl IndexedNetwork<'_> {
    // The k-th action of state q, from 1. The first one is where the state's entry leads, so that the loop makes no turn for it. A number that comes from a store
    // may be far past the last action: the search ends where the chain does.
    pub fn action_of(&self, q: usize, k: usize) -> Option<usize>
        ensures { result ≡ found_of (action_of self.now.net.table.now self.now.net.shape q k) }
    {
        if k == 0 {
            return None;
        }
        let n = self.net.shape.actions();
        let before = k - 1;
        let mut j = self.first_action(q);
        let mut m = 0;
        loop {
            if n <= j {
                break None;
            }
            if m == before {
                break Some(j);
            }
            j = self.next_action(j);
            m += 1;
        }
    }
}
