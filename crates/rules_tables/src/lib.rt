// The rules of tables: types and definitions in specs/, laws about them in proofs/laws/. No code but what a shape tells of itself.
#![tactic(auto)]

ghost use Rattle.std.specs.Prelude.{◌≡◌};
ghost use Rattle.rules_tables.specs.Ids.{elements as «elements_of», inputs as «inputs_of», outputs as «outputs_of», variables as «variables_of», associations as «associations_of», states as «states_of», transitions as «transitions_of», actions as «actions_of», steps as «steps_of», connections as «connections_of», links as «links_of»};

// The frame after the last of each kind, of a table that was accepted.
#[derive(Clone, Copy)]
pub struct Shape {
    pub elements_end: usize,
    pub inputs_end: usize,
    pub outputs_end: usize,
    pub variables_end: usize,
    pub associations_end: usize,
    pub states_end: usize,
    pub transitions_end: usize,
    pub actions_end: usize,
    pub steps_end: usize,
    pub connections_end: usize,
    pub links_end: usize,
}

// How many frames of each kind the table has. A kind has the frames from the end of the kind before it to its own end.
impl Shape {
    pub fn elements(self) -> usize
        ensures { result ≡ «elements_of» self }
    {
        self.elements_end
    }

    #[tactic(auto, unfolding(crate::specs::Ids::inputs))]
    pub fn inputs(self) -> usize
        ensures { result ≡ «inputs_of» self }
    {
        self.inputs_end.saturating_sub(self.elements_end)
    }

    #[tactic(auto, unfolding(crate::specs::Ids::outputs))]
    pub fn outputs(self) -> usize
        ensures { result ≡ «outputs_of» self }
    {
        self.outputs_end.saturating_sub(self.inputs_end)
    }

    #[tactic(auto, unfolding(crate::specs::Ids::variables))]
    pub fn variables(self) -> usize
        ensures { result ≡ «variables_of» self }
    {
        self.variables_end.saturating_sub(self.outputs_end)
    }

    #[tactic(auto, unfolding(crate::specs::Ids::associations))]
    pub fn associations(self) -> usize
        ensures { result ≡ «associations_of» self }
    {
        self.associations_end.saturating_sub(self.variables_end)
    }

    #[tactic(auto, unfolding(crate::specs::Ids::states))]
    pub fn states(self) -> usize
        ensures { result ≡ «states_of» self }
    {
        self.states_end.saturating_sub(self.associations_end)
    }

    #[tactic(auto, unfolding(crate::specs::Ids::transitions))]
    pub fn transitions(self) -> usize
        ensures { result ≡ «transitions_of» self }
    {
        self.transitions_end.saturating_sub(self.states_end)
    }

    #[tactic(auto, unfolding(crate::specs::Ids::actions))]
    pub fn actions(self) -> usize
        ensures { result ≡ «actions_of» self }
    {
        self.actions_end.saturating_sub(self.transitions_end)
    }

    #[tactic(auto, unfolding(crate::specs::Ids::steps))]
    pub fn steps(self) -> usize
        ensures { result ≡ «steps_of» self }
    {
        self.steps_end.saturating_sub(self.actions_end)
    }

    #[tactic(auto, unfolding(crate::specs::Ids::connections))]
    pub fn connections(self) -> usize
        ensures { result ≡ «connections_of» self }
    {
        self.connections_end.saturating_sub(self.steps_end)
    }

    #[tactic(auto, unfolding(crate::specs::Ids::links))]
    pub fn links(self) -> usize
        ensures { result ≡ «links_of» self }
    {
        self.links_end.saturating_sub(self.connections_end)
    }
}

// Why a table or a call is refused: document 01's number, and the lowest faulty frame for 2 to 4, else 0. It is not an enum: the definitions and laws of an
// answer (`Verdict`, `number_by`, `answer_tells`, `store_refusal`) speak of any number, and hosts in C and the lines of a session get it as it is.
#[derive(Clone, Copy, PartialEq, Eq, Debug)]
pub struct Refusal {
    pub number: usize,
    pub frame: usize,
}

// So many frames from a frame on.
#[derive(Clone, Copy)]
pub struct Span {
    pub first: usize,
    pub count: usize,
}
