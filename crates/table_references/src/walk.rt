// A walk over the frames, and what it knows of the steps' results from the actions before.
ghost use Rattle.std.specs.Prelude.{◌≡◌, true, ◌<◌};
ghost use Rattle.rules_tables.specs.Frame.{frames_of};
ghost use Rattle.rules_tables.specs.Reference.{steps_of, acts as «acts_at»};
ghost use Rattle.table_references.specs.Known.{Known};

use crate::{Run, maybe_owned};
use table_frames::frame::field;
use table_frames::frames::Frames;
use table_frames::kind::Kind;

#[derive(Clone, Copy)]
pub struct Walk<'a> {
    pub frames: Frames<'a>,
    pub run: Run,
    ghost known: { Known frames.kinds.table.now run },
}

impl Walk<'_> {
    // The n steps from b on exist, and their results are of element el; of the first `known` of them it is known.
    fn steps_of(&self, b: usize, n: usize, el: usize) -> bool
        requires { (b < 65536) × (n < 65536) }
        ensures { result ≡ steps_of self.now.frames.kinds.table.now b n el }
    {
        if n == 0 {
            return true;
        }
        let frames = &self.frames;
        let known = self.run.known_from(b, el);
        b + n <= frames.kinds.count(Kind::Step)
            && (known..n).all(|i| frames.owned(Kind::Variable, frames.owner(Kind::Step, b + i), el))
    }

    // 08: steps, results and output event of the state's element.
    pub fn acts(&self, f: usize) -> bool
        requires { f < frames_of self.now.frames.kinds.table.now }
        ensures { result ≡ acts_at self.now.frames.kinds.table.now f }
    {
        let frames = &self.frames;
        let t = frames.kinds.table;
        let state = field(t, f, 0);
        if !frames.exists(Kind::ChartState, state) {
            return false;
        }
        let el = frames.owner(Kind::ChartState, state);
        self.steps_of(field(t, f, 1), field(t, f, 2), el)
            && maybe_owned(frames, Kind::EventOutput, field(t, f, 3), el)
    }

    // What is known of the steps after action f, which refers rightly: its own steps, and those known before where these go on from there.
    pub fn known_after(&self, f: usize) -> Run
        requires { (f < frames_of self.now.frames.kinds.table.now) × (acts_at self.now.frames.kinds.table.now f ≡ true) }
        ensures { Known self.now.frames.kinds.table.now result }
    {
        let frames = &self.frames;
        let run = self.run;
        let t = frames.kinds.table;
        let n = field(t, f, 2);
        if n == 0 {
            return run;
        }
        let first = field(t, f, 1);
        let element = frames.owner(Kind::ChartState, field(t, f, 0));
        let end = first + n;
        if run.known_from(first, element) == 0 {
            return Run {
                element,
                first,
                end,
            };
        }
        if end <= run.end {
            return run;
        }
        Run {
            element,
            end,
            ..run
        }
    }
}
