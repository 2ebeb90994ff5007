// The check of a table image: the first fault, 1 to 5, in the order header, states, actions, edges, for words of any number and
// content; and the fields of its records. Each contract is the model's definition of the same thing. Assumes nothing.
#![tactic(auto)]

ghost use Rattle.std.specs.Prelude.{◌≡◌, map, ◌+◌, ◌<◌, ◌^◌};
ghost use Rattle.std.specs.List.{range_with_len};
ghost use Rattle.model.specs.Answer.{all_kept, word};
ghost use Rattle.model.specs.Expr.{read_at, is_parsed};
ghost use Rattle.model.specs.Table.{edges_at, actions_at, codes_at, code_area, header_rules, start_fault, state_rules, action_rules, table_fault};
ghost use Rattle.fault.specs.Fault.{checked_of};
ghost use Rattle.table.specs.Checks.{edge_rules, state_record, edge_record, action_record};

use fault::{Fault, Reason};

mod areas;
mod decoded;

use areas::Areas;
pub use decoded::{Action, State};

// The fields of a state.
#[derive(Clone, Copy)]
pub struct StateRecord {
    pub kind: u32,
    pub left: u32,
    pub right: u32,
    pub on_true: u32,
    pub on_false: u32,
}

// The fields of an edge: its target, and the range of its actions.
#[derive(Clone, Copy)]
pub struct EdgeRecord {
    pub target: u32,
    pub first: u32,
    pub count: u32,
}

// The fields of an action: its kind, and the variable or port and the expression's start or variable.
#[derive(Clone, Copy)]
pub struct ActionRecord {
    pub kind: u32,
    pub a: u32,
    pub b: u32,
}

// The word at a place; 0 past the end.
#[tactic(auto, unfolding(model::specs::Answer::word))]
pub fn word_at(image: &[u32], at: usize) -> u32
    ensures { result ≡ word image.now at }
{
    image.get(at).copied().unwrap_or(0)
}

// N words from a place on; 0 past the end.
pub fn words_at<const N: usize>(image: &[u32], at: usize) -> [u32; N]
    requires { at + N < 2 ^ 64 }
    ensures { result ≡ map (λ k. word image.now (at + k)) (range_with_len 0 N) }
{
    let mut words = [0; N];
    let end = at + N;
    if end <= image.len() {
        words.copy_from_slice(&image[at..end]);
        return words;
    }
    for k in 0..N {
        words[k] = word_at(image, at + k);
    }
    words
}

// Where the edges begin, as the count of states fixes it.
#[tactic(auto, unfolding(model::specs::Table::edges_at, model::specs::Table::states))]
fn edges_at(image: &[u32]) -> usize
    ensures { (result ≡ edges_at image.now) × (result < 2 ^ 35) }
{
    let states = word_at(image, 2) as usize;
    10 + 5 * states
}

// Where the actions begin.
#[tactic(auto, unfolding(model::specs::Table::actions_at, model::specs::Table::edges))]
fn actions_at(image: &[u32]) -> usize
    ensures { (result ≡ actions_at image.now) × (result < 2 ^ 36) }
{
    let edges = word_at(image, 4) as usize;
    edges_at(image) + 3 * edges
}

// Where the code area begins.
#[tactic(auto, unfolding(model::specs::Table::codes_at, model::specs::Table::actions))]
fn codes_at(image: &[u32]) -> usize
    ensures { (result ≡ codes_at image.now) × (result < 2 ^ 37) }
{
    let actions = word_at(image, 6) as usize;
    actions_at(image) + 3 * actions
}

// The code area: what there is of it where the image is too short.
pub fn code_area(image: &[u32]) -> &[u32]
    ensures { result.now ≡ code_area image.now }
{
    let at = codes_at(image);
    let n = word_at(image, 8) as usize;
    if image.len() <= at {
        return &image[..0];
    }
    let rest = &image[at..];
    if n <= rest.len() {
        return &rest[..n];
    }
    rest
}

// The fields of state i.
#[tactic(auto, unfolding(crate::specs::Checks::state_record, model::specs::Table::state_word))]
pub fn state(image: &[u32], i: u32) -> StateRecord
    ensures { result ≡ state_record image.now i }
{
    let [kind, left, right, on_true, on_false] = words_at::<5>(image, 10 + 5 * (i as usize));
    StateRecord {
        kind,
        left,
        right,
        on_true,
        on_false,
    }
}

// The fields of edge i, where the edges begin at a place; of a sound image that is its word 5.
#[tactic(auto, unfolding(crate::specs::Checks::edge_record))]
pub fn edge(image: &[u32], at: u32, i: u32) -> EdgeRecord
    ensures { result ≡ edge_record image.now at i }
{
    let [target, first, count] = words_at::<3>(image, (at as usize) + 3 * (i as usize));
    EdgeRecord {
        target,
        first,
        count,
    }
}

// The fields of action i, where the actions begin at a place; of a sound image that is its word 7.
#[tactic(auto, unfolding(crate::specs::Checks::action_record))]
pub fn action(image: &[u32], at: u32, i: u32) -> ActionRecord
    ensures { result ≡ action_record image.now at i }
{
    let [kind, a, b] = words_at::<3>(image, (at as usize) + 3 * (i as usize));
    ActionRecord { kind, a, b }
}

// Whether the header is right: the version, the length, the counts, and the offsets that they fix.
#[tactic(auto, unfolding(model::specs::Table::header_rules, model::specs::Table::states, model::specs::Table::edges, model::specs::Table::actions, model::specs::Table::codes, model::specs::Answer::all_kept, model::specs::Answer::kept))]
fn header_fits(image: &[u32]) -> bool
    ensures { result ≡ all_kept (header_rules image.now) }
{
    let states = word_at(image, 2);
    let edges = word_at(image, 4);
    let actions = word_at(image, 6);
    let codes = word_at(image, 8) as usize;
    let codes_start = codes_at(image);
    let end = codes_start + codes;
    word_at(image, 0) == 1
        && word_at(image, 1) as usize == image.len()
        && 1 <= states
        && states <= 64
        && word_at(image, 3) == 10
        && edges <= 128
        && word_at(image, 5) as usize == edges_at(image)
        && actions <= 512
        && word_at(image, 7) as usize == actions_at(image)
        && codes <= 2048
        && word_at(image, 9) as usize == codes_start
        && image.len() == end
}

// Whether an expression starts at a place of a code area.
fn is_expression(code: &[u32], start: u32) -> bool
    ensures { result ≡ is_parsed (read_at code.now start) }
{
    let at = start as usize;
    if code.len() <= at {
        return false;
    }
    expr::extent(&code[at..]).is_some()
}

// The check of one expression of a code area, by its start.
#[tactic(auto, unfolding(model::specs::Table::start_fault, fault::specs::Fault::checked_of))]
fn check_start(code: &[u32], start: u32) -> Result<(), Fault>
    ensures { result ≡ checked_of (start_fault code.now start) }
{
    if is_expression(code, start) {
        return Ok(());
    }
    Err(Fault {
        reason: Reason::WrongExpression,
        record: start,
    })
}

// Whether the fields of a state are right, where there are so many edges.
#[tactic(auto, unfolding(model::specs::Table::state_rules, model::specs::Answer::all_kept, model::specs::Answer::kept))]
fn state_fits(edges: u32, s: StateRecord) -> bool
    ensures { result ≡ all_kept (state_rules edges s.kind s.left s.right s.on_true s.on_false) }
{
    // Stays: the record's numbers are checked here, before they are kinds.
    match s.kind {
        0 => s.left == 0 && s.right == 0 && s.on_true == 0 && s.on_false == 0,
        1 => s.left == 0 && s.right == 0 && s.on_true < edges && s.on_false == 0,
        2..=4 => s.on_true < edges && s.on_false < edges,
        _ => false,
    }
}

// Whether the fields of an action are right.
#[tactic(auto, unfolding(model::specs::Table::action_rules, model::specs::Answer::all_kept, model::specs::Answer::kept))]
fn action_fits(a: ActionRecord) -> bool
    ensures { result ≡ all_kept (action_rules a.kind a.a a.b) }
{
    // Stays: the record's numbers are checked here, before they are kinds.
    match a.kind {
        0 => a.a <= 15,
        1 => a.a <= 3 && a.b <= 15,
        2 => a.a <= 3,
        _ => false,
    }
}

// Whether the fields of an edge are right, where there are so many states and actions.
#[tactic(auto, unfolding(crate::specs::Checks::edge_rules, model::specs::Answer::all_kept, model::specs::Answer::kept))]
fn edge_fits(states: u32, actions: u32, e: EdgeRecord) -> bool
    ensures { result ≡ all_kept (edge_rules states actions e.target e.first e.count) }
{
    let end = (e.first as usize) + (e.count as usize);
    e.target < states && e.count <= 16 && end <= (actions as usize)
}

// The first fault of an image: the header's, or else along the states, the actions and the edges.
pub fn check(image: &[u32]) -> Result<(), Fault>
    ensures { result ≡ checked_of (table_fault image.now) }
{
    if !header_fits(image) {
        return Err(Fault {
            reason: Reason::WrongTable,
            record: 0,
        });
    }
    let areas = Areas::new(image);
    fault::first_fault(word_at(image, 2), |i| areas.check_state(i))?;
    fault::first_fault(word_at(image, 6), |i| areas.check_action(i))?;
    fault::first_fault(word_at(image, 4), |i| areas.check_edge(i))
}
