// What the fields of a state's and an action's record say, by its kind. They stand in a module of their own, since a function `state` and an
// enum `State` may not share one.

ghost use Rattle.std.specs.Prelude.{◌≡◌};
ghost use Rattle.table.specs.Decoded.{state_as, action_as, edge_taken};

use super::{ActionRecord, StateRecord};
use word::Kind;

// A state: a stop, a step with its only edge, or a test with the starts of its two expressions and its true and its false edge.
#[derive(Clone, Copy, PartialEq, Eq)]
pub enum State {
    Stop,
    Step {
        edge: u32,
    },
    Test {
        kind: Kind,
        left: u32,
        right: u32,
        on_true: u32,
        on_false: u32,
    },
}

// An action: a variable set to an expression, a word read from a port into a variable, an expression written to a port.
#[derive(Clone, Copy, PartialEq, Eq)]
pub enum Action {
    Assign { variable: u32, start: u32 },
    Read { port: u32, variable: u32 },
    Write { port: u32, start: u32 },
}

// The state that a record holds: kind 0 is a stop, 1 a step, any other a test.
impl From<StateRecord> for State {
    ghost from_gives = { λ s r. r ≡ state_as s };

    fn from(s: StateRecord) -> State {
        match s.kind {
            0 => State::Stop,
            1 => State::Step { edge: s.on_true },
            kind => State::Test {
                kind: Kind::from(kind - 2),
                left: s.left,
                right: s.right,
                on_true: s.on_true,
                on_false: s.on_false,
            },
        }
    }
}

impl State {
    // The edge by which the state is left on a side: none from a stop, and the only one of a step on both.
    #[tactic(auto, unfolding(crate::specs::Decoded::edge_taken))]
    pub fn edge_on(self, taken: bool) -> Option<u32>
        ensures { result ≡ edge_taken self taken }
    {
        match self {
            State::Stop => None,
            State::Step { edge } => Some(edge),
            State::Test {
                on_true,
                on_false,
                ..
            } => Some(if taken { on_true } else { on_false }),
        }
    }
}

// The action that a record holds: kind 0 is an assign, 1 a read, any other a write.
impl From<ActionRecord> for Action {
    ghost from_gives = { λ a r. r ≡ action_as a };

    fn from(a: ActionRecord) -> Action {
        match a.kind {
            0 => Action::Assign {
                variable: a.a,
                start: a.b,
            },
            1 => Action::Read {
                port: a.a,
                variable: a.b,
            },
            _ => Action::Write {
                port: a.a,
                start: a.b,
            },
        }
    }
}
