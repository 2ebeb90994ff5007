// Rule 11: whether a pair's paths cover the walks from its first state, by a walk of the tree of choices that consumes them in their
// order. And for rule 12, where a path ends, if it is walkable. Each contract is the model's definition of the same thing. Assumes
// nothing.
#![tactic(auto)]

ghost use Rattle.std.specs.Prelude.{◌≡◌, map, ◌+◌, ◌-◌, ◌≤◌, ◌<◌, ◌^◌, ◌%◌, cond};
ghost use Rattle.model.specs.Answer.{up_to, word};
ghost use Rattle.model.specs.Table.{edges_at, table_of};
ghost use Rattle.model.specs.Run.{edge_on};
ghost use Rattle.model.specs.Path.{choices, allows, walkable, end_state, rule11};
ghost use Rattle.model.specs.Correspondence.{path_at};
ghost use Rattle.cover.specs.Visit.{visit};
ghost use Rattle.cover.specs.Nodes.{paths_in, visited_of, Offset};
ghost use Rattle.cover.specs.Ending.{reached_of};

use table::State;

// A node of the tree of choices: its state, how many choices led there, at most 32, and those choices as a word, with no bit past them.
#[derive(Clone, Copy)]
struct Node {
    state: u32,
    depth: u32,
    led: u32,
    ghost shallow: { depth ≤ 32 },
    ghost short: { led < 2 ^ depth },
}

impl Node {
    // The node on a side, at the state to which it leads.
    fn on(self, taken: bool, state: u32) -> Node
        requires { self.depth < 32 }
        ensures state { result.state ≡ state }
        ensures depth { result.depth ≡ self.depth + 1 }
        ensures led { result.led ≡ self.led + cond taken (2 ^ self.depth) 0 }
    {
        let bit = if taken { 1 << self.depth } else { 0 };
        Node {
            state,
            depth: self.depth + 1,
            led: self.led + bit,
        }
    }
}

// The lowest n bits of a word.
fn low_bits(word: u32, n: u32) -> u32
    requires { n ≤ 32 }
    ensures { result ≡ word % 2 ^ n }
{
    (u64::from(word) % (1 << n)) as u32
}

// The walk at a node, with the paths from `next` up to `end` left: the first path left over, or none where it fails. A visit looks at
// one path, the next. Where that path does not come to the node the visit fails, and with it the whole walk; else the node is the root or
// stands behind an edge of that path, a node for each edge. So there are at most as many visits as the listed paths have edges, and two:
// the root's, and one that fails. The depth is at most 33.
fn visit(table: &[u32], list: &[u32], node: Node, next: u32, end: u32) -> Option<u32>
    requires { Offset table.now list.now × (next ≤ end) }
    ensures { result ≡ visited_of end (visit (table_of table.now) (32 - node.depth) node.state (choices node.depth node.led) (paths_in list.now next end)) }
{
    if next >= end {
        return None;
    }
    let path = list::path(list, table::word_at(list, 7), next);
    if path.length < node.depth {
        return None;
    }
    if low_bits(path.choices, node.depth) != node.led {
        return None;
    }
    if path.length == node.depth {
        let later = next + 1;
        return Some(later);
    }
    if node.depth == 32 {
        return None;
    }
    let at = table::word_at(table, 5);
    match State::from(table::state(table, node.state)) {
        State::Stop => None,
        State::Step { edge } => {
            let only = table::edge(table, at, edge);
            visit(table, list, node.on(false, only.target), next, end)
        }
        State::Test {
            on_true,
            on_false,
            ..
        } => {
            let first = table::edge(table, at, on_true);
            let left = visit(table, list, node.on(true, first.target), next, end)?;
            let second = table::edge(table, at, on_false);
            visit(table, list, node.on(false, second.target), left, end)
        }
    }
}

// Whether the paths of a correspondence, `count` from `first` on, cover the walks from a state of a table: rule 11 at a pair.
pub fn covers(table: &[u32], list: &[u32], state: u32, first: u32, count: u32) -> bool
    requires { Offset table.now list.now × (first + count < 2 ^ 32) }
    ensures { result ≡ rule11 (table_of table.now) 32 state (map (λ p. p.first) (map (path_at list.now) (up_to first count))) }
{
    if let State::Stop = State::from(table::state(table, state)) {
        return count == 0;
    }
    let root = Node {
        state,
        depth: 0,
        led: 0,
    };
    let end = first + count;
    visit(table, list, root, first, end) == Some(end)
}

// Where a choice leads from a state, or none where the state cannot be left so, where the edges begin at a place.
fn leave(table: &[u32], at: u32, state: u32, taken: bool) -> Option<u32>
    requires { at ≡ edges_at table.now }
    ensures { result ≡ reached_of (allows (table_of table.now state) taken) (edge_on (table_of table.now state) taken).target }
{
    let edge = match State::from(table::state(table, state)) {
        State::Stop => return None,
        State::Step { .. } if taken => return None,
        State::Step { edge } => edge,
        State::Test { on_true, .. } if taken => on_true,
        State::Test { on_false, .. } => on_false,
    };
    Some(table::edge(table, at, edge).target)
}

// Where a path of so many edges, by its word of choices, leads from a state, edge by edge; none where a state on the way cannot be left so.
pub fn reach(table: &[u32], state: u32, length: u32, bits: u32) -> Option<u32>
    requires { word table.now 5 ≡ edges_at table.now }
    ensures { result ≡ reached_of (walkable (table_of table.now) state (choices length bits)) (end_state (table_of table.now) state (choices length bits)) }
{
    let at = table::word_at(table, 5);
    let mut here = state;
    let mut rest = bits;
    // Stays: a length may be over 32, past which a shift by it is none.
    for _ in 0..length {
        here = leave(table, at, here, rest % 2 == 1)?;
        rest /= 2;
    }
    Some(here)
}
