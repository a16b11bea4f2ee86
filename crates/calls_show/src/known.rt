// What an entry names is there, and of that block and kind.
ghost use Rattle.std.specs.Prelude.{◌≡◌};
ghost use Rattle.calls_show.specs.Charted.{Charted};
ghost use Rattle.rules_traces.specs.Reader.{nameless as «nameless_of», happened as «happened_of», of_chart, of_variable, of_event_input, of_event_output, of_transition, right_kind, known_entry};

use rules_traces::{
    ACTION_KIND, CHART_KIND, EMITTED_KIND, ENABLED_KIND, Entry, FINISHED_KIND, INPUT_KIND,
    INTERNAL_KIND, OUTPUT_KIND, SELECTED_KIND, STARTED_KIND, STEP_KIND,
};
use store_words::network::Network;
use table_frames::frame::{field, flag};
use table_frames::kind::{INPUT, INTERNAL, OUTPUT};

// No id is named.
#[tactic(auto, unfolding(rules_traces::specs::Reader::nameless))]
fn nameless(e: Entry) -> bool
    ensures { result ≡ «nameless_of» e }
{
    e.id == 0
}

// It only says that something happened.
#[tactic(auto, unfolding(rules_traces::specs::Reader::happened))]
fn happened(e: Entry) -> bool
    ensures { result ≡ «happened_of» e }
{
    e.value == 1
}

// The value is a chart state of the block.
#[tactic(auto, unfolding(rules_traces::specs::Reader::of_chart))]
fn of_chart(net: &Network, e: Entry) -> bool
    ensures { result ≡ of_chart net.now.table.now net.now.shape e }
{
    let q = e.value as usize;
    q < net.shape.states() && field(net.table, net.state_frame(q), 0) == e.block
}

// The id is a variable of the block, in this role.
#[tactic(auto, unfolding(rules_traces::specs::Reader::of_variable))]
fn of_variable(net: &Network, role: usize, e: Entry) -> bool
    ensures { result ≡ of_variable net.now.table.now net.now.shape role e }
{
    if net.shape.variables() <= e.id {
        return false;
    }
    let f = net.variable_frame(e.id);
    field(net.table, f, 0) == e.block && flag(net.table, f) == role
}

// The id is an event input of the block.
#[tactic(auto, unfolding(rules_traces::specs::Reader::of_event_input))]
fn of_event_input(net: &Network, e: Entry) -> bool
    ensures { result ≡ of_event_input net.now.table.now net.now.shape e }
{
    e.id < net.shape.inputs() && field(net.table, net.input_frame(e.id), 0) == e.block
}

// The id is an event output of the block.
#[tactic(auto, unfolding(rules_traces::specs::Reader::of_event_output))]
fn of_event_output(net: &Network, e: Entry) -> bool
    ensures { result ≡ of_event_output net.now.table.now net.now.shape e }
{
    e.id < net.shape.outputs() && field(net.table, net.output_frame(e.id), 0) == e.block
}

// The id is a transition of the block: one whose states are.
#[tactic(auto, unfolding(rules_traces::specs::Reader::of_transition))]
fn of_transition(net: &Network, e: Entry) -> bool
    requires { Charted net.now.table.now net.now.shape }
    ensures { result ≡ of_transition net.now.table.now net.now.shape e }
{
    if net.shape.transitions() <= e.id {
        return false;
    }
    let from = field(net.table, net.transition_frame(e.id), 0);
    field(net.table, net.state_frame(from), 0) == e.block
}

// By its kind.
#[tactic(auto, unfolding(rules_traces::specs::Reader::right_kind))]
fn right_kind(net: &Network, e: Entry) -> bool
    requires { Charted net.now.table.now net.now.shape }
    ensures { result ≡ right_kind net.now.table.now net.now.shape e }
{
    match e.kind {
        CHART_KIND => nameless(e) && of_chart(net, e),
        INTERNAL_KIND => of_variable(net, INTERNAL, e),
        INPUT_KIND => of_variable(net, INPUT, e),
        OUTPUT_KIND => of_variable(net, OUTPUT, e),
        STARTED_KIND => nameless(e) && happened(e),
        FINISHED_KIND => nameless(e) && happened(e),
        SELECTED_KIND => of_event_input(net, e) && happened(e),
        EMITTED_KIND => of_event_output(net, e) && happened(e),
        ENABLED_KIND => of_transition(net, e) && happened(e),
        ACTION_KIND => nameless(e),
        STEP_KIND => nameless(e),
        _ => false,
    }
}

// Of a block that there is.
#[tactic(auto, unfolding(rules_traces::specs::Reader::known_entry))]
pub fn known_entry(net: &Network, e: Entry) -> bool
    requires { Charted net.now.table.now net.now.shape }
    ensures { result ≡ known_entry net.now.table.now net.now.shape e }
{
    e.block < net.shape.elements() && right_kind(net, e)
}
