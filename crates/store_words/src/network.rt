// A network: an accepted table with its shape.
ghost use Rattle.rules_tables.specs.Good.{Good};

use rules_tables::Shape;

// A table, its shape, and what those who run it know of them. The check of a table gives them; nobody else makes one.
#[derive(Clone, Copy)]
pub struct Network<'a> {
    pub table: &'a [u8],
    pub shape: Shape,
    pub ghost good: { Good table.now shape },
}
