// How many words a store needs.
ghost use Rattle.std.specs.Prelude.{◌≡◌};
ghost use Rattle.rules_store.specs.Layout.{need as «need_of»};
ghost use Rattle.store_words.specs.Small.{Small};

use rules_tables::Shape;

// How many words a store of this shape needs.
#[tactic(auto, unfolding(rules_store::specs::Layout::need))]
pub fn need(shape: Shape) -> usize
    requires { Small shape }
    ensures { result ≡ need_of shape }
{
    16 + 3 * shape.elements_end + 3 * shape.inputs() + 2 * shape.variables()
}
