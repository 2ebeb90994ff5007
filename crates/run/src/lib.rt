// The trial run of a table on given words: the image and the input are checked, then edges are done one after the other until the run
// stops, its limit is reached, or input or room is lacking. The answer and the whole final buffer are the model's. Assumes nothing.
#![tactic(auto)]

ghost use Rattle.std.specs.Prelude.{◌≡◌, true, ◌+◌, ◌≤◌, ◌<◌, List, ℕ, length, get_or, drop, IfSome};
ghost use Rattle.model.specs.Answer.{sound, all_kept};
ghost use Rattle.model.specs.Word.{base};
ghost use Rattle.model.specs.Table.{actions};
ghost use Rattle.model.specs.Run.{zeros, end_of, run_fault, buffer_of, trial, trial_buffer};
ghost use Rattle.fault.specs.Fault.{checked_of};
ghost use Rattle.table.specs.Decoded.{action_meant};
ghost use Rattle.table.specs.declared.decoded.Action.TheVariants.{Read};
ghost use Rattle.run.specs.Held.{per_port, left_from, actions_of, needing, spend, need_of, count_of, Needed};
ghost use Rattle.run.specs.Answers.{answer_of, input_rules, refused_of, ended_of, ended_at, end_as};

use fault::{Fault, Reason};
use hand::Hand;
use sound::Sound;
use table::{Action, EdgeRecord, State};

mod hand;
mod sound;

// Stays: document 01 fixes the answer, and `sandulipaw_run` hands out its numbers (`numbers_of`, in that function's clause).
// How a trial run ended: the number, image and record, the state reached, the edges done, the couples written and the variables.
#[derive(Clone, Copy)]
pub struct Trial {
    pub number: u32,
    pub image: u32,
    pub record: u32,
    pub state: u32,
    pub edges: u32,
    pub couples: usize,
    pub variables: [u32; 16],
}

// The answer of a refusal: a wrong input names no image.
impl From<Fault> for Trial {
    ghost from_gives = { λ fault r. r ≡ refused_of fault };

    fn from(fault: Fault) -> Trial {
        Trial {
            number: u32::from(fault.reason),
            image: match fault.reason {
                Reason::WrongInput => 0,
                _ => 1,
            },
            record: fault.record,
            state: 0,
            edges: 0,
            couples: 0,
            variables: [0u32; 16],
        }
    }
}

// A run that ended: why, in which state, after how many edges, how many words are written, and the variables.
#[derive(Clone, Copy)]
struct Ended {
    reason: Reason,
    state: u32,
    edges: u32,
    written: usize,
    variables: [u32; 16],
}

impl Ended {
    // A run that ends with what it holds.
    fn at(reason: Reason, state: u32, edges: u32, hand: &Hand) -> Ended
        ensures { result ≡ ended_at hand.now reason state edges }
    {
        Ended {
            reason,
            state,
            edges,
            written: hand.written,
            variables: hand.variables,
        }
    }
}

// The answer of a run that ended.
impl From<Ended> for Trial {
    ghost from_gives = { λ ended r. r ≡ ended_of ended };

    fn from(ended: Ended) -> Trial {
        let variables = ended.variables;
        Trial {
            number: u32::from(ended.reason),
            image: 0,
            record: 0,
            state: ended.state,
            edges: ended.edges,
            couples: ended.written / 2,
            variables,
        }
    }
}

// Whether the input is an even number of words, couples whose ports are at most 3.
fn is_input(input: &[u32]) -> bool
    ensures { result ≡ all_kept (input_rules input.now) }
{
    if input.len() % 2 != 0 {
        return false;
    }
    for i in 0..input.len() / 2 {
        if input[2 * i] > 3 {
            return false;
        }
    }
    true
}

// How many words each port is given.
fn given(input: &[u32]) -> [usize; 4]
    requires { all_kept (input_rules input.now) ≡ true }
    ensures { result ≡ per_port (λ p. length (left_from input.now p 0)) }
{
    let mut counts = [0usize; 4];
    for i in 0..input.len() / 2 {
        let port = input[2 * i] as usize;
        counts[port] += 1;
    }
    counts
}

// Stays: a missing word is 0, as in the model's input past its end, so an Option would be opened at once.
// A word taken from a port, and the couple from which the port's next word is looked for.
#[derive(Clone, Copy)]
struct Word {
    word: u32,
    next: usize,
}

// The next word of a port, looked for from a couple on; 0 where there is none.
fn next_word(input: &[u32], port: u32, from: usize) -> Word
    ensures word { result.word ≡ get_or (left_from input.now port from) 0 0 }
    ensures next { left_from input.now port result.next ≡ drop 1 (left_from input.now port from) }
{
    for i in from..input.len() / 2 {
        if input[2 * i] == port {
            return Word {
                word: input[2 * i + 1],
                next: i + 1,
            };
        }
    }
    Word {
        word: 0,
        next: from,
    }
}

// One action's need: a read takes a word of its port, a write counts a couple. The answer is the couples so far, or none where a word is
// lacking.
fn spent(action: Action, left: &mut [usize; 4], writes: usize) -> Option<usize>
    requires ports { (p v : ℕ) → action ≡ Read p v → p < 4 }
    requires few { writes < 16 }
    ensures count { (code : List ℕ) → result ≡ count_of (spend (needing left.old writes) (action_meant code action)) }
    ensures left_after { (code : List ℕ) → left.new ≡ (spend (needing left.old writes) (action_meant code action)).left }
{
    match action {
        Action::Assign { .. } => Some(writes),
        Action::Read { port, .. } => {
            let p = port as usize;
            left[p] = left[p].checked_sub(1)?;
            Some(writes)
        }
        Action::Write { .. } => Some(writes + 1),
    }
}

// What the actions of an edge need: how many couples they write, or none where a word is lacking. Of the words that the ports have left,
// those are taken that the actions read.
fn needs(table: &Sound, edge: EdgeRecord, left: &mut [usize; 4]) -> Option<usize>
    requires { (edge.first + edge.count ≤ actions table.now.image.now) × (edge.count ≤ 16) }
    ensures need { Needed (need_of left.old (actions_of table.now.image.now edge)) result left.new }
    ensures few { IfSome result (λ n. n ≤ 16) }
{
    let mut writes = 0;
    for i in edge.first..edge.first + edge.count {
        writes = spent(table.action(i), left, writes)?;
    }
    Some(writes)
}

// The run of a checked table on checked input: edge by edge, each done whole or not begun.
fn walk(table: &Sound, input: &[u32], limit: u32, out: &mut [u32]) -> Ended
    requires { all_kept (input_rules input.now) ≡ true }
    ensures value { result ≡ end_as (end_of base zeros table.now.image.now input.now limit out.old) }
    ensures out_after { out.new ≡ buffer_of sound (end_of base zeros table.now.image.now input.now limit out.old) out.old }
{
    let mut hand = Hand::new();
    let mut left = given(input);
    let mut state = 0;
    for done in 0..limit {
        let Some(edge) = table.taken(state, &hand.variables) else {
            return Ended::at(Reason::EndStop, state, done, &hand);
        };
        let Some(writes) = needs(table, edge, &mut left) else {
            return Ended::at(Reason::EndInput, state, done, &hand);
        };
        if out.len() - hand.written < 2 * writes {
            return Ended::at(Reason::EndRoom, state, done, &hand);
        }
        hand.perform(table, input, edge, out);
        state = edge.target;
    }
    match table.state(state) {
        State::Stop => Ended::at(Reason::EndStop, state, limit, &hand),
        _ => Ended::at(Reason::EndLimit, state, limit, &hand),
    }
}

// The check of a table and its input: what is found in the table, then in the input.
fn check(table: &[u32], input: &[u32]) -> Result<(), Fault>
    ensures { result ≡ checked_of (run_fault table.now input.now) }
{
    table::check(table)?;
    if is_input(input) {
        return Ok(());
    }
    Err(Fault {
        reason: Reason::WrongInput,
        record: 0,
    })
}

// The trial run: what is found in the table, then in the input, and else how the run ends; the couples are written to the front of the
// buffer, whose other words stay, and a refused run writes no word.
pub fn run(table: &[u32], input: &[u32], limit: u32, out: &mut [u32]) -> Trial
    ensures value { result ≡ answer_of (trial base zeros table.now input.now limit out.old) }
    ensures out_after { out.new ≡ trial_buffer base zeros table.now input.now limit out.old }
{
    match check(table, input) {
        Err(fault) => Trial::from(fault),
        Ok(()) => Trial::from(walk(&Sound::new(table), input, limit, out)),
    }
}
