// An environment: a normal sum for each of sixteen variables, lent wherever it is used, so that no sum is copied that is not asked for. Each
// contract is an equation with the definitions of specs/Env; a variable of 16 and more has the empty sum. Assumes nothing.
#![tactic(auto)]

ghost use Rattle.std.specs.Prelude.{◌≡◌, ◌≤◌, ◌<◌, [], map, get_or, set};
ghost use Rattle.sum.specs.Packed.{terms_of, as_sum};
ghost use Rattle.env.specs.Env.{sums_of, with_variable, symbols_of};

use sum::{Sum, Term};

// The number of variables of an environment.
pub const SUMS: usize = 16;

// The sums of the variables in turn.
#[derive(Clone, Copy)]
pub struct Env {
    pub sums: [Sum; 16],
}

// A sum as it is read: its terms, and zeros behind them.
fn read(s: &Sum) -> Sum
    ensures { result ≡ as_sum (terms_of s.now) }
{
    let zero = Term { coef: 0, mono: 0 };
    let mut terms = [zero; 16];
    let n = s.n.min(Sum::TERMS);
    terms[..n].copy_from_slice(&s.terms[..n]);
    Sum { n, terms }
}

// One of sixteen sums replaced.
fn put(sums: &mut [Sum; 16], v: usize, s: Sum)
    requires { v < 16 }
    ensures after { sums.new ≡ set sums.old v s }
    ensures stored { get_or (map terms_of sums.new) v [] ≡ terms_of s }
{
    sums[v] = s;
}

impl Env {
    // Each variable is its symbol of the list.
    pub fn symbols(list: &[u32; 16]) -> Env
        ensures { result ≡ symbols_of list.now }
    {
        // Stays: `list.map(..)` makes the sixteen sums and copies them three times.
        let mut sums = [Sum::empty(); 16];
        for v in 0..16 {
            sums[v] = Sum::symbol(key::symbol(list[v]));
        }
        Env { sums }
    }

    // The sum of a variable.
    #[tactic(auto, unfolding(crate::specs::Env::sums_of))]
    pub fn get(&self, v: usize) -> Sum
        ensures value { result ≡ as_sum (get_or (sums_of self.now) v []) }
        ensures past { 16 ≤ v → result ≡ as_sum [] }
    {
        match self.sums.get(v) {
            Some(s) => read(s),
            None => Sum::empty(),
        }
    }

    // The sum of a variable replaced; nothing changes for a variable of 16 and more.
    #[tactic(auto, unfolding(crate::specs::Env::with_variable, crate::specs::Env::sums_of))]
    pub fn set(&mut self, v: usize, s: Sum)
        ensures after { self.new ≡ with_variable self.old v s }
        ensures stored { v < 16 → get_or (sums_of self.new) v [] ≡ terms_of s }
        ensures past { 16 ≤ v → self.new ≡ self.old }
    {
        if v < self.sums.len() {
            put(&mut self.sums, v, s);
        }
    }
}
