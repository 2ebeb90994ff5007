// One side of a path: choices followed through a table with symbols, whole, to the sums of the variables, the conditions, and the
// reads and writes of each port, or stuck where something is too large. A side is lent and filled anew for each path. Each contract is an
// equation with the definitions of specs/Parts and specs/Following. Assumes nothing.
#![tactic(auto)]

ghost use Rattle.std.specs.Prelude.{◌≡◌, ◌+◌, ◌≤◌, ◌<◌, ◌^◌, length, replicate};
ghost use Rattle.model.specs.Answer.{sound};
ghost use Rattle.model.specs.Table.{states, table_fault, table_of};
ghost use Rattle.model.specs.Path.{read_symbol, room_on, choices as choices_of};
ghost use Rattle.key.specs.Key.{symbol_of};
ghost use Rattle.sum.specs.Packed.{symbol_k, as_sum};
ghost use Rattle.table.specs.Decoded.{action_meant};
ghost use Rattle.condition.specs.Conditions.{conditions_of};
ghost use Rattle.side.specs.Parts.{count_on, no_port, wrote_on, blank, start_as};
ghost use Rattle.side.specs.Following.{followed_as, asked_in, actions_in, Parsed, Formed, AllParsed, edge_by, action_k, actions_k, follow_k};

use arrayvec::ArrayVec;
pub use condition::CONDITIONS;
use condition::{Condition, Conditions};
use env::Env;
use sum::{Sum, TooLarge};
use table::{Action, EdgeRecord, State};

// The most writes on a port, and the most reads.
pub const ON_A_PORT: usize = 16;

// The sums written to a port.
pub type Port = ArrayVec<Sum, 16>;

// A side of a path: the state reached, the conditions on the way, the sums of the variables, how many words are read on each port, and the
// sums written to each.
#[derive(Clone, Drop)]
pub struct Side {
    pub state: u32,
    pub conditions: Conditions,
    pub env: Env,
    pub reads: [usize; 4],
    pub writes: [Port; 4],
}

// How many words are read on a port; none on a port that is not there.
#[tactic(auto, unfolding(crate::specs::Parts::count_on))]
fn count_on(reads: &[usize], port: u32) -> usize
    ensures { result ≡ count_on reads.now port }
{
    reads.get(port as usize).copied().unwrap_or(0)
}

// How many sums are written on a port; none on a port that is not there.
#[tactic(auto, unfolding(crate::specs::Parts::wrote_on))]
fn wrote_on(writes: &[Port], port: u32) -> usize
    ensures { result ≡ wrote_on writes.now port }
{
    writes.get(port as usize).map_or(0, |w| w.len())
}

// Whether a port, of the four, has had fewer than 16 of something.
#[tactic(auto, unfolding(model::specs::Path::room_on))]
fn has_room(port: u32, n: usize) -> bool
    ensures { result ≡ room_on port n }
{
    port < 4 && n < ON_A_PORT
}

// The packed symbol of read n on a port.
#[tactic(auto, unfolding(model::specs::Path::read_symbol))]
fn read_symbol(port: u32, n: usize) -> u32
    requires { (port < 4) × (n < 16) }
    ensures { result ≡ symbol_of (read_symbol port n) }
{
    let symbol = 32 + 16 * port + (n as u32);
    key::symbol(symbol)
}

// The edge of a state on a side, where the edges begin at a place; a stop has the empty edge.
#[tactic(auto, unfolding(crate::specs::Following::edge_by, crate::specs::Following::edge_of))]
fn edge_on(image: &[u32], at: u32, state: State, taken: bool) -> EdgeRecord
    ensures { result ≡ edge_by image.now at state taken }
{
    match state.edge_on(taken) {
        Some(i) => table::edge(image, at, i),
        // Stays: the model's edge of a stop is the empty one (`edge_by`).
        None => EdgeRecord {
            target: 0,
            first: 0,
            count: 0,
        },
    }
}

// No sums are written to any port any more.
fn clear(writes: &mut [Port; 4])
    ensures { writes.new ≡ replicate 4 no_port }
{
    for port in writes {
        port.clear();
    }
}

impl Side {
    // A side with nothing on it, where a state is 0 and each sum empty.
    #[tactic(auto, unfolding(crate::specs::Parts::blank, crate::specs::Parts::start_as))]
    pub fn new() -> Side
        ensures { result ≡ blank }
    {
        Side {
            state: 0,
            conditions: Conditions::new(),
            env: Env {
                sums: [Sum::empty(); 16],
            },
            reads: [0; 4],
            writes: [Port::new(), Port::new(), Port::new(), Port::new()],
        }
    }

    // The start of a path: no conditions, reads or writes.
    #[tactic(auto, unfolding(crate::specs::Parts::start_as))]
    fn start(&mut self, state: u32, env: &Env)
        ensures { self.new ≡ start_as state env.now }
    {
        self.state = state;
        self.conditions.clear();
        self.env = *env;
        self.reads = [0; 4];
        clear(&mut self.writes);
    }

    // The condition of a test for the side taken; other states add none.
    fn ask(&mut self, code: &[u32], state: State, taken: bool) -> Result<(), TooLarge>
        requires { (length (conditions_of self.old.conditions) < 32) × Formed code.now state }
        ensures { followed_as result self.new ≡ asked_in code.now state taken self.old }
    {
        let State::Test {
            kind,
            left,
            right,
            ..
        } = state
        else {
            return Ok(());
        };
        let first = expr::sum_at(code, left, &self.env)?;
        let second = expr::sum_at(code, right, &self.env)?;
        self.conditions.push(Condition {
            kind,
            left: first,
            right: second,
            taken,
        });
        Ok(())
    }

    // One action, its expression on the sums before the edge.
    fn perform(&mut self, code: &[u32], action: Action, before: &Env) -> Result<(), TooLarge>
        requires { Parsed code.now action }
        ensures { followed_as result self.new ≡ action_k before.now (action_meant code.now action) self.old }
    {
        match action {
            Action::Assign { variable, start } => {
                let s = expr::sum_at(code, start, before)?;
                self.env.set(variable as usize, s);
            }
            Action::Read { port, variable } => {
                let n = count_on(&self.reads, port);
                if !has_room(port, n) {
                    return Err(TooLarge);
                }
                self.env
                    .set(variable as usize, Sum::symbol(read_symbol(port, n)));
                self.reads[port as usize] = n + 1;
            }
            Action::Write { port, start } => {
                let s = expr::sum_at(code, start, before)?;
                if !has_room(port, wrote_on(&self.writes, port)) {
                    return Err(TooLarge);
                }
                self.writes[port as usize].push(s);
            }
        }
        Ok(())
    }

    // The actions of an edge in listed order, where the actions begin at a place.
    fn act(
        &mut self,
        image: &[u32],
        code: &[u32],
        at: u32,
        edge: EdgeRecord,
    ) -> Result<(), TooLarge>
        requires { (edge.first + edge.count < 2 ^ 32) × AllParsed image.now code.now at edge.first edge.count }
        ensures { followed_as result self.new ≡ actions_k self.old.env (actions_in image.now code.now at edge.first edge.count) self.old }
    {
        let before = self.env;
        for i in edge.first..edge.first + edge.count {
            self.perform(code, Action::from(table::action(image, at, i)), &before)?;
        }
        Ok(())
    }

    // Choices followed from where the side stands, on which nothing is asked yet: bit k, from the lowest, is the choice at the k-th state.
    #[inline(never)]
    fn walk(&mut self, image: &[u32], steps: u32, choices: u32) -> Result<(), TooLarge>
        requires { (table_fault image.now ≡ sound) × ((self.old.state < states image.now) × ((length (conditions_of self.old.conditions) ≡ 0) × (steps ≤ 32))) }
        ensures { followed_as result self.new ≡ follow_k (table_of image.now) (choices_of steps choices) self.old }
    {
        let code = table::code_area(image);
        let edges = table::word_at(image, 5);
        let actions = table::word_at(image, 7);
        for k in 0..steps {
            let taken = (choices >> k) % 2 == 1;
            let state = State::from(table::state(image, self.state));
            self.ask(code, state, taken)?;
            let edge = edge_on(image, edges, state, taken);
            self.act(image, code, actions, edge)?;
            self.state = edge.target;
        }
        Ok(())
    }

    // Choices followed from a state, with the variables as an environment says: bit k, from the lowest, is the choice at the k-th state.
    // The environment is copied where the side was made, so that the copy needs no `memmove`, which a program in C that links the archive
    // may not have.
    #[inline(always)]
    pub fn follow(
        &mut self,
        image: &[u32],
        state: u32,
        steps: u32,
        choices: u32,
        env: &Env,
    ) -> Result<(), TooLarge>
        requires { (table_fault image.now ≡ sound) × ((state < states image.now) × (steps ≤ 32)) }
        ensures { followed_as result self.new ≡ follow_k (table_of image.now) (choices_of steps choices) (start_as state env.now) }
    {
        self.start(state, env);
        self.walk(image, steps, choices)
    }
}
