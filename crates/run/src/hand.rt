// What the engine holds of a run, and what an action and the actions of an edge do to it and to the buffer. Assumes nothing.

ghost use Rattle.std.specs.Prelude.{◌≡◌, ◌+◌, ◌*◌, ◌≤◌, length, replicate};

use super::next_word;
use super::sound::Sound;
use table::{Action, EdgeRecord};

// What a run holds: the variables, for each port the couple of the input from which its next word is looked for, and how many words of the
// buffer are written.
#[derive(Clone, Copy)]
pub struct Hand {
    pub variables: [u32; 16],
    pub next: [usize; 4],
    pub written: usize,
    pub ghost four: { length next ≡ 4 },
}

impl Hand {
    ghost use Rattle.model.specs.Word.{base};
    ghost use Rattle.model.specs.Table.{actions};
    ghost use Rattle.table.specs.Decoded.{action_meant};
    ghost use Rattle.run.specs.Held.{held_of, act_h, act_all_h, actions_of, writes_of, writes_in};
    ghost use Rattle.run.specs.Sound.{ActionFits};

    // What a run holds at reset.
    pub fn new() -> Hand
        ensures { (result.variables ≡ replicate 16 0) × (result.next ≡ replicate 4 0) × (result.written ≡ 0) }
    {
        Hand {
            variables: [0u32; 16],
            next: [0usize; 4],
            written: 0,
        }
    }

    // One action, with its expression on the variables before the edge.
    fn act(
        &mut self,
        code: &[u32],
        input: &[u32],
        action: Action,
        before: &[u32; 16],
        out: &mut [u32],
    )
        requires fits { ActionFits code.now action }
        requires room { self.old.written + 2 * writes_of (action_meant code.now action) ≤ length out.old }
        ensures { held_of input.now self.new out.new ≡ act_h base before.now (action_meant code.now action) (held_of input.now self.old out.old) }
    {
        match action {
            Action::Assign { variable, start } => {
                self.variables[variable as usize] = expr::worth(code, start, before);
            }
            Action::Read { port, variable } => {
                let taken = next_word(input, port, self.next[port as usize]);
                self.variables[variable as usize] = taken.word;
                self.next[port as usize] = taken.next;
            }
            Action::Write { port, start } => {
                out[self.written] = port;
                out[self.written + 1] = expr::worth(code, start, before);
                self.written += 2;
            }
        }
    }

    // The actions of an edge in listed order, each with its expression on the variables before the edge.
    pub fn perform(&mut self, table: &Sound, input: &[u32], edge: EdgeRecord, out: &mut [u32])
        requires range { edge.first + edge.count ≤ actions table.now.image.now }
        requires room { self.old.written + 2 * writes_in (actions_of table.now.image.now edge) ≤ length out.old }
        ensures { held_of input.now self.new out.new
            ≡ act_all_h base self.old.variables (actions_of table.now.image.now edge) (held_of input.now self.old out.old) }
    {
        let before = self.variables;
        for i in edge.first..edge.first + edge.count {
            self.act(table.code, input, table.action(i), &before, out);
        }
    }
}
