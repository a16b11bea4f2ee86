// The rules of the store: types and definitions in specs/, laws about them in proofs/laws/. No code but the running block's own methods.
// The running block: mode (0 idle, 1 charts, 2 acts), live flag, action, step, and the birth of the current event.
#![tactic(auto)]

ghost use Rattle.std.specs.Prelude.{◌≡◌, ◌<◌};
ghost use Rattle.rules_store.specs.Running.{rest as «rest_of», awake as «awake_of», entered as «entered_of», stepped as «stepped_of», charting as «charting_of»};

// The modes. They stay numbers: a store may hold any number there, and whether it is a mode is part of being well formed (`mode_ok`).
pub const IDLE: u32 = 0;

pub const CHARTS: u32 = 1;

pub const ACTS: u32 = 2;

#[derive(Clone, Copy, PartialEq, Eq, Debug)]
pub struct Running {
    pub birth: u32,
    pub mode: u32,
    pub live: u32,
    pub action: u32,
    pub step: u32,
}

// The next due time: 1 and the earliest due time where something is due, else 0 and 0. It stays two numbers: a store may hold any two there, and `next_ok` compares
// them with those found.
#[derive(Clone, Copy, PartialEq, Eq, Debug)]
pub struct NextDue {
    pub due: u32,
    pub time: u32,
}

impl Running {
    // Idle.
    pub fn rest() -> Self
        ensures { result ≡ rest_of }
    {
        Running {
            birth: 0,
            mode: IDLE,
            live: 0,
            action: 0,
            step: 0,
        }
    }

    // An event with this birth was taken: mode 1, live.
    pub fn awake(birth: u32) -> Self
        ensures { result ≡ awake_of birth }
    {
        Running {
            birth,
            mode: CHARTS,
            live: 1,
            action: 0,
            step: 0,
        }
    }

    // A transition was made, or an action ended: mode 2, live ended, at this action's first step.
    pub fn entered(self, action: u32) -> Self
        ensures { result ≡ entered_of action self }
    {
        Running {
            mode: ACTS,
            live: 0,
            action,
            step: 0,
            ..self
        }
    }

    // One step was made.
    pub fn stepped(self) -> Self
        requires { self.step < 4294967295 }
        ensures { result ≡ stepped_of self }
    {
        Running {
            step: self.step + 1,
            ..self
        }
    }

    // All actions are done: mode 1, live stays as it is.
    pub fn charting(self) -> Self
        ensures { result ≡ charting_of self }
    {
        Running {
            mode: CHARTS,
            ..self
        }
    }
}
