// The conditions of a path: how they are held, what the test of one comes to whatever the words are, whether conditions contradict one
// another (15), and whether second conditions are assured by first ones (16). Each contract is an equation with the definitions of
// specs/Conditions. Assumes nothing.
#![tactic(auto)]

ghost use Rattle.std.specs.Prelude.{◌≡◌, ◌≤◌, length};
ghost use Rattle.sum.specs.Packed.{terms_of};
ghost use Rattle.condition.specs.Conditions.{no_condition, no_conditions, pushed, conditions_of, constant_in, word_of, settled_in, settled_of, constant_on, like_in, met_in, contradicts_in, assured_in};

use arrayvec::ArrayVec;
use sum::Sum;
use word::Kind;

// A condition: the kind of its test, two sums as written, and the side taken.
#[derive(Clone, Copy)]
pub struct Condition {
    pub kind: Kind,
    pub left: Sum,
    pub right: Sum,
    pub taken: bool,
}

// A condition that says nothing: 0 equal to 0, not taken.
impl Default for Condition {
    ghost is_default = { λ c. c ≡ no_condition };

    #[tactic(auto, unfolding(crate::specs::Conditions::no_condition))]
    fn default() -> Condition {
        Condition {
            kind: Kind::Equal,
            left: Sum::empty(),
            right: Sum::empty(),
            taken: false,
        }
    }
}

// Stays: document 01 names an enum of constant and open.
// What a condition's test comes to whatever the words are: it is open, or constant.
#[derive(Clone, Copy, PartialEq, Eq)]
pub enum Settled {
    Open,
    Constant(bool),
}

impl Settled {
    // Whether the test is constant on a side.
    #[tactic(auto, unfolding(crate::specs::Conditions::constant_on))]
    fn is_constant_on(self, side: bool) -> bool
        ensures { result ≡ constant_on side self }
    {
        match self {
            Settled::Open => false,
            Settled::Constant(found) => found == side,
        }
    }
}

// The most conditions of a side.
pub const CONDITIONS: usize = 32;

// At most 32 conditions.
#[derive(Clone, Drop)]
pub struct Conditions {
    items: ArrayVec<Condition, CONDITIONS>,
}

// The constant that a sum is, as a word: no terms are the constant 0.
#[tactic(auto, unfolding(crate::specs::Conditions::constant_in, crate::specs::Conditions::word_of, sum::specs::Packed::terms_of))]
fn constant(s: &Sum) -> Option<u32>
    ensures { result ≡ word_of (constant_in (terms_of s.now)) }
{
    match &s.terms[..s.n.min(Sum::TERMS)] {
        [] => Some(0),
        &[t] if t.mono == 0 => Some(t.coef),
        _ => None,
    }
}

impl Condition {
    // What the test comes to whatever the words are.
    pub fn settled(&self) -> Settled
        ensures { result ≡ settled_of (settled_in self.now) }
    {
        match (constant(&self.left), constant(&self.right)) {
            (Some(a), Some(b)) => Settled::Constant(word::holds(self.kind, a, b)),
            _ if self.left.same(&self.right) => Settled::Constant(self.kind == Kind::Equal),
            _ => Settled::Open,
        }
    }

    // Whether another condition has this one's kind and sums, and the given side taken.
    #[tactic(auto, unfolding(crate::specs::Conditions::like_in, crate::specs::Conditions::same_test_in, word::specs::Kinds::kind_of, model::specs::Judgement::same_kind, model::specs::Word::kind_number))]
    fn is_like(&self, taken: bool, other: &Condition) -> bool
        ensures { result ≡ like_in self.now taken other.now }
    {
        self.kind == other.kind
            && self.left.same(&other.left)
            && self.right.same(&other.right)
            && taken == other.taken
    }

    // Whether the test is constant on a side, or stands among the conditions with that side taken.
    fn is_met(&self, taken: bool, among: &Conditions) -> bool
        ensures { result ≡ met_in (conditions_of among.now) self.now taken }
    {
        if self.settled().is_constant_on(taken) {
            return true;
        }
        among
            .items
            .as_slice()
            .iter()
            .any(|c| self.is_like(taken, c))
    }
}

impl Conditions {
    // No conditions.
    #[tactic(auto, unfolding(crate::specs::Conditions::no_conditions))]
    pub fn new() -> Conditions
        ensures { result ≡ no_conditions }
    {
        Conditions {
            items: ArrayVec::new(),
        }
    }

    // No conditions any more.
    #[tactic(auto, unfolding(crate::specs::Conditions::no_conditions))]
    pub fn clear(&mut self)
        ensures { self.new ≡ no_conditions }
    {
        self.items.clear();
    }

    // One condition more; nothing where there are 32.
    #[tactic(auto, unfolding(crate::specs::Conditions::pushed, crate::specs::Conditions::with_condition))]
    pub fn push(&mut self, c: Condition)
        ensures { self.new ≡ pushed self.old c }
    {
        if !self.items.is_full() {
            self.items.push(c);
        }
    }

    // The conditions, in order.
    pub fn as_slice(&self) -> &[Condition]
        ensures value { result.now ≡ conditions_of self.now }
        ensures few { length result.now ≤ 32 }
    {
        self.items.as_slice()
    }

    // Whether the test of some condition is met on the side that is not taken: a false constant condition, or two opposites.
    pub fn contradicts(&self) -> bool
        ensures { result ≡ contradicts_in (conditions_of self.now) }
    {
        self.items
            .as_slice()
            .iter()
            .any(|c| c.is_met(!c.taken, self))
    }

    // Whether each condition is constant true or stands among the first's.
    pub fn assured_by(&self, first: &Conditions) -> bool
        ensures { result ≡ assured_in (conditions_of first.now) (conditions_of self.now) }
    {
        self.items
            .as_slice()
            .iter()
            .all(|c| c.is_met(c.taken, first))
    }
}
