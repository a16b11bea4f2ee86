// An element and its shape, which is by its sort.
ghost use Rattle.std.specs.Prelude.{◌≡◌, ◌<◌, eqb};
ghost use Rattle.rules_walks.specs.Pick.{both};
ghost use Rattle.rules_walks.specs.Tally.{Tallied};
ghost use Rattle.rules_tables.specs.Frame.{frames_of};
ghost use Rattle.rules_tables.specs.Shapes.{parts, source_shape, sink_shape, interface_shape, delay_shape, shape_as};
ghost use Rattle.table_network.specs.Class.{class_number};
ghost use Rattle.table_network.specs.Keys.{part_key};

use crate::class::Class;
use table_frames::kind::{DELAY, INTERFACE, SINK, SOURCE};

#[derive(Clone, Copy)]
pub struct Element<'a> {
    pub table: &'a [u8],
    pub id: usize,
    // How many parts each element has: entry 6 el + c is for those of class c of element el.
    pub tally: &'a [u16; 384],
    ghost few: { id < 64 },
    ghost tallied: { Tallied (part_key table.now) 384 tally.now (frames_of table.now) },
}

impl Element<'_> {
    // How many parts of this class it has.
    fn parts(&self, class: Class) -> usize
        ensures { result ≡ parts self.now.table.now (class_number class) self.now.id }
    {
        usize::from(self.tally[6 * self.id + class.number()])
    }

    // It has no parts of this class.
    fn lacks(&self, class: Class) -> bool
        ensures { result ≡ eqb (parts self.now.table.now (class_number class) self.now.id) 0 }
    {
        self.parts(class) == 0
    }

    // It has no internal variables, and none of a flag that is not known.
    fn no_others(&self) -> bool
        ensures { result ≡ both (eqb (parts self.now.table.now 4 self.now.id) 0) (eqb (parts self.now.table.now 5 self.now.id) 0) }
    {
        self.lacks(Class::Internals) && self.lacks(Class::Unknowns)
    }

    // No event inputs and only output variables.
    #[tactic(auto, unfolding(rules_tables::specs::Shapes::source_shape))]
    fn source_shape(&self) -> bool
        ensures { result ≡ source_shape self.now.table.now self.now.id }
    {
        self.lacks(Class::EventInputs) && self.lacks(Class::Inputs) && self.no_others()
    }

    // No event outputs and only input variables.
    #[tactic(auto, unfolding(rules_tables::specs::Shapes::sink_shape))]
    fn sink_shape(&self) -> bool
        ensures { result ≡ sink_shape self.now.table.now self.now.id }
    {
        self.lacks(Class::EventOutputs) && self.lacks(Class::Outputs) && self.no_others()
    }

    // As many event inputs as outputs, as many input as output variables, no internal ones.
    #[tactic(auto, unfolding(rules_tables::specs::Shapes::interface_shape))]
    fn interface_shape(&self) -> bool
        ensures { result ≡ interface_shape self.now.table.now self.now.id }
    {
        self.parts(Class::EventInputs) == self.parts(Class::EventOutputs)
            && self.parts(Class::Inputs) == self.parts(Class::Outputs)
            && self.lacks(Class::Internals)
    }

    // START and STOP, one event output, DT.
    #[tactic(auto, unfolding(rules_tables::specs::Shapes::delay_shape))]
    fn delay_shape(&self) -> bool
        ensures { result ≡ delay_shape self.now.table.now self.now.id }
    {
        self.parts(Class::EventInputs) == 2
            && self.parts(Class::EventOutputs) == 1
            && self.parts(Class::Inputs) == 1
            && self.lacks(Class::Outputs)
            && self.no_others()
    }

    // It has the shape of this sort.
    #[tactic(auto, unfolding(rules_tables::specs::Shapes::shape_as))]
    pub fn shape_as(&self, sort: usize) -> bool
        ensures { result ≡ shape_as sort self.now.table.now self.now.id }
    {
        match sort {
            INTERFACE => self.interface_shape(),
            DELAY => self.delay_shape(),
            SOURCE => self.source_shape(),
            SINK => self.sink_shape(),
            _ => true,
        }
    }
}
