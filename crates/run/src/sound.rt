// A table in which nothing is found, and its states, edges and actions, which keep to what the check looks for. Assumes nothing.

ghost use Rattle.std.specs.Prelude.{◌≡◌, true, ◌<◌, IfSome, IfNone};
ghost use Rattle.model.specs.Answer.{sound, word};
ghost use Rattle.model.specs.Table.{code_area, table_fault};

use table::{Action, ActionRecord, EdgeRecord, State};

// A table in which nothing is found, with its code area and the places where its edges and its actions begin.
#[derive(Clone, Copy)]
pub struct Sound<'a> {
    pub image: &'a [u32],
    pub code: &'a [u32],
    pub edges_at: u32,
    pub actions_at: u32,
    pub ghost passed: { table_fault image.now ≡ sound },
    pub ghost area: { code.now ≡ code_area image.now },
    pub ghost edges_begin: { edges_at ≡ word image.now 5 },
    pub ghost actions_begin: { actions_at ≡ word image.now 7 },
}

impl<'a> Sound<'a> {
    ghost use Rattle.model.specs.Table.{states, edges, actions, table_of, edge_at, action_at};
    ghost use Rattle.model.specs.Run.{is_stop};
    ghost use Rattle.table.specs.Decoded.{state_meant, action_meant};
    ghost use Rattle.run.specs.Held.{edge_of};
    ghost use Rattle.run.specs.Sound.{StateFits, ActionFits, EdgeFits, Leaves, test_of};

    // The table of an image in which nothing is found.
    pub fn new(image: &'a [u32]) -> Sound<'a>
        requires { table_fault image.now ≡ sound }
        ensures { result.image.now ≡ image.now }
    {
        Sound {
            image,
            code: table::code_area(image),
            edges_at: table::word_at(image, 5),
            actions_at: table::word_at(image, 7),
        }
    }

    // A state of the table.
    pub fn state(&self, i: u32) -> State
        requires { i < states self.now.image.now }
        ensures meant { table_of self.now.image.now i ≡ state_meant self.now.image.now result }
        ensures fits { StateFits (edges self.now.image.now) self.now.code.now result }
    {
        State::from(table::state(self.image, i))
    }

    // An edge of the table.
    fn edge(&self, i: u32) -> EdgeRecord
        requires { i < edges self.now.image.now }
        ensures meant { edge_at self.now.image.now i ≡ edge_of self.now.image.now result }
        ensures fits { EdgeFits self.now.image.now result }
    {
        table::edge(self.image, self.edges_at, i)
    }

    // An action of the table. It is read here, since `table::action` asks of each record whether the image has it, and of this one that is known.
    pub fn action(&self, i: u32) -> Action
        requires { i < actions self.now.image.now }
        ensures meant { action_at self.now.image.now i ≡ action_meant self.now.code.now result }
        ensures fits { ActionFits self.now.code.now result }
    {
        let at = (self.actions_at as usize) + 3 * (i as usize);
        Action::from(ActionRecord {
            kind: self.image[at],
            a: self.image[at + 1],
            b: self.image[at + 2],
        })
    }

    // Whether the test of a state is true at the variables; what is no test counts as false.
    fn side(&self, state: State, variables: &[u32; 16]) -> bool
        requires { StateFits (edges self.now.image.now) self.now.code.now state }
        ensures { result ≡ test_of self.now.code.now variables.now state }
    {
        match state {
            State::Test {
                kind,
                left,
                right,
                ..
            } => {
                let left = expr::worth(self.code, left, variables);
                let right = expr::worth(self.code, right, variables);
                word::holds(kind, left, right)
            }
            _ => false,
        }
    }

    // The edge by which a state is left at the variables; a stop is not left.
    pub fn taken(&self, s: u32, variables: &[u32; 16]) -> Option<EdgeRecord>
        requires { s < states self.now.image.now }
        ensures stops { IfNone result (is_stop (table_of self.now.image.now s) ≡ true) }
        ensures leaves { IfSome result (λ e. Leaves self.now.image.now s variables.now e) }
    {
        let state = self.state(s);
        let i = state.edge_on(self.side(state, variables))?;
        Some(self.edge(i))
    }
}
