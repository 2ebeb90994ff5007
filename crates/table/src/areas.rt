// The areas of an image whose header is right, and the check of each of their records. Assumes nothing.

ghost use Rattle.std.specs.Prelude.{◌≡◌, true};
ghost use Rattle.model.specs.Answer.{all_kept};
ghost use Rattle.model.specs.Table.{code_area, edges_at, actions_at, header_rules};

use super::{Action, State, action_fits, check_start, edge_fits, state_fits, word_at};
use fault::{Fault, Reason};

// An image with its code area and the places where its edges and its actions begin.
#[derive(Clone, Copy)]
pub struct Areas<'a> {
    pub image: &'a [u32],
    pub code: &'a [u32],
    pub edges: u32,
    pub actions: u32,
    pub ghost codes: { code.now ≡ code_area image.now },
    pub ghost edges_begin: { edges ≡ edges_at image.now },
    pub ghost actions_begin: { actions ≡ actions_at image.now },
}

impl<'a> Areas<'a> {
    ghost use Rattle.model.specs.Table.{state_fault, action_fault, action_at, edge_fault};
    ghost use Rattle.fault.specs.Fault.{checked_of};
    ghost use Rattle.table.specs.Checks.{set_of};

    // The areas of an image whose header is right.
    pub fn new(image: &'a [u32]) -> Areas<'a>
        requires { all_kept (header_rules image.now) ≡ true }
        ensures { result.image.now ≡ image.now }
    {
        Areas {
            image,
            code: super::code_area(image),
            edges: word_at(image, 5),
            actions: word_at(image, 7),
        }
    }

    // The check of one state: its own fields, then a test's left expression, then its right.
    pub fn check_state(&self, i: u32) -> Result<(), Fault>
        ensures { result ≡ checked_of (state_fault self.now.image.now i) }
    {
        let s = super::state(self.image, i);
        let edges = word_at(self.image, 4);
        if !state_fits(edges, s) {
            return Err(Fault {
                reason: Reason::WrongState,
                record: i,
            });
        }
        let State::Test { left, right, .. } = State::from(s) else {
            return Ok(());
        };
        check_start(self.code, left)?;
        check_start(self.code, right)
    }

    // The check of one action: its own fields, then the expression of an assign or a write.
    pub fn check_action(&self, i: u32) -> Result<(), Fault>
        ensures { result ≡ checked_of (action_fault self.now.image.now i) }
    {
        let a = super::action(self.image, self.actions, i);
        if !action_fits(a) {
            return Err(Fault {
                reason: Reason::WrongAction,
                record: i,
            });
        }
        match Action::from(a) {
            Action::Read { .. } => Ok(()),
            Action::Assign { start, .. } | Action::Write { start, .. } => check_start(
                self.code, start,
            ),
        }
    }

    // Stays: the record's kind is matched on as it stands, since this is asked for each pair of an edge's actions; by an `Action` the check of
    // a table took a quarter longer.
    // The variable that action i sets, if it sets one.
    fn set_by(&self, i: u32) -> Option<u32>
        ensures { result ≡ set_of (action_at self.now.image.now i) }
    {
        let a = super::action(self.image, self.actions, i);
        match a.kind {
            0 => Some(a.a),
            1 => Some(a.b),
            _ => None,
        }
    }

    // The check of one edge: its own fields, then that its actions set no variable twice.
    pub fn check_edge(&self, i: u32) -> Result<(), Fault>
        ensures { result ≡ checked_of (edge_fault self.now.image.now i) }
    {
        let e = super::edge(self.image, self.edges, i);
        if !edge_fits(word_at(self.image, 2), word_at(self.image, 6), e) {
            return Err(Fault {
                reason: Reason::WrongEdge,
                record: i,
            });
        }
        let end = e.first + e.count;
        if !fault::are_distinct(e.first, end, |j| self.set_by(j)) {
            return Err(Fault {
                reason: Reason::WrongEdge,
                record: i,
            });
        }
        Ok(())
    }
}
