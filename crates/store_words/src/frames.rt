// The frame of each id.
ghost use Rattle.std.specs.Prelude.{◌<◌};
ghost use Rattle.numbers.specs.Bounded.{Bounded};
ghost use Rattle.rules_tables.specs.Frame.{frames_of};
ghost use Rattle.rules_tables.specs.Ids.{input_frame, output_frame, variable_frame, association_frame, state_frame, transition_frame, action_frame, step_frame, connection_frame, link_frame};
ghost use Rattle.rules_tables.specs.Ids.{inputs as «inputs_of», outputs as «outputs_of», variables as «variables_of», associations as «associations_of», states as «states_of», transitions as «transitions_of», actions as «actions_of», steps as «steps_of», connections as «connections_of», links as «links_of»};

use crate::network::Network;

impl Network<'_> {
    // The frame of event input i.
    pub fn input_frame(&self, i: usize) -> usize
        requires { i < «inputs_of» self.now.shape }
        ensures { Bounded (frames_of self.now.table.now) (input_frame self.now.shape i) result }
    {
        self.shape.elements_end + i
    }

    // The frame of event output o.
    pub fn output_frame(&self, o: usize) -> usize
        requires { o < «outputs_of» self.now.shape }
        ensures { Bounded (frames_of self.now.table.now) (output_frame self.now.shape o) result }
    {
        self.shape.inputs_end + o
    }

    // The frame of variable v.
    pub fn variable_frame(&self, v: usize) -> usize
        requires { v < «variables_of» self.now.shape }
        ensures { Bounded (frames_of self.now.table.now) (variable_frame self.now.shape v) result }
    {
        self.shape.outputs_end + v
    }

    // The frame of association a.
    pub fn association_frame(&self, a: usize) -> usize
        requires { a < «associations_of» self.now.shape }
        ensures { Bounded (frames_of self.now.table.now) (association_frame self.now.shape a) result }
    {
        self.shape.variables_end + a
    }

    // The frame of chart state q.
    pub fn state_frame(&self, q: usize) -> usize
        requires { q < «states_of» self.now.shape }
        ensures { Bounded (frames_of self.now.table.now) (state_frame self.now.shape q) result }
    {
        self.shape.associations_end + q
    }

    // The frame of transition j.
    pub fn transition_frame(&self, j: usize) -> usize
        requires { j < «transitions_of» self.now.shape }
        ensures { Bounded (frames_of self.now.table.now) (transition_frame self.now.shape j) result }
    {
        self.shape.states_end + j
    }

    // The frame of action j.
    pub fn action_frame(&self, j: usize) -> usize
        requires { j < «actions_of» self.now.shape }
        ensures { Bounded (frames_of self.now.table.now) (action_frame self.now.shape j) result }
    {
        self.shape.transitions_end + j
    }

    // The frame of step j.
    pub fn step_frame(&self, j: usize) -> usize
        requires { j < «steps_of» self.now.shape }
        ensures { Bounded (frames_of self.now.table.now) (step_frame self.now.shape j) result }
    {
        self.shape.actions_end + j
    }

    // The frame of event connection j.
    pub fn connection_frame(&self, j: usize) -> usize
        requires { j < «connections_of» self.now.shape }
        ensures { Bounded (frames_of self.now.table.now) (connection_frame self.now.shape j) result }
    {
        self.shape.steps_end + j
    }

    // The frame of data connection j.
    pub fn link_frame(&self, j: usize) -> usize
        requires { j < «links_of» self.now.shape }
        ensures { Bounded (frames_of self.now.table.now) (link_frame self.now.shape j) result }
    {
        self.shape.connections_end + j
    }
}
