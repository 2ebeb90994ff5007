// Normal sums as the code holds them: at most 16 terms, each a coefficient and its symbols packed into one number. Sums are added,
// subtracted, negated, multiplied and compared. Each contract is an equation on the whole answer with the definitions of specs/Packed; a count
// over 16 is read as 16, and entries past the count of a result are zero. Terms are collected in a vector of fixed capacity. Assumes nothing.
#![tactic(auto)]

ghost use Rattle.std.specs.Prelude.{◌≡◌, ◌+◌, ◌-◌, ◌≤◌, ◌<◌, [], ◌∷◌, ◌++◌, suc, ltb, OnOk, OnErr, length, take, drop, get_or};
ghost use Rattle.std.specs.List.{prefix_len};
ghost use Rattle.model.specs.Word.{base};
ghost use Rattle.model.specs.Sum.{fits, too_large};
ghost use Rattle.sum.specs.Packed.{keep_k, joined_k, insert_k, fit_k, constant_k, symbol_k, add_k, negate_k, subtract_k, term_product_k, products_k, multiply_k, same_k, zero_term, terms_of, as_sum, gather_k, added_of};

use arrayvec::ArrayVec;

// A coefficient, and the packed list of its symbols.
#[derive(Clone, Copy, Default, PartialEq, Eq)]
pub struct Term {
    pub coef: u32,
    pub mono: u32,
}

// At most 16 terms; entries past n are not read.
// Stays: a count over 16 is read as 16 (`terms_of`, in the clauses of `add`, `negate` and the others), which a vector of fixed capacity would refuse, and
// a sum is copied.
#[derive(Clone, Copy, Default)]
pub struct Sum {
    pub n: usize,
    pub terms: [Term; 16],
}

// A sum that does not fit: more than 16 terms, or a term of more than 4 symbols.
#[derive(Clone, Copy, PartialEq, Eq)]
pub struct TooLarge;

// The first place whose symbols do not precede the given ones.
fn place(ts: &[Term], mono: u32) -> usize
    ensures at { result ≡ prefix_len (λ t. ltb t.mono mono) ts.now }
    ensures within { result ≤ length ts.now }
{
    ts.iter().position(|t| t.mono >= mono).unwrap_or(ts.len())
}

// Stays: the vector's own `insert` and `remove` need `memmove`, which a program in C that links the archive may not have.
// A term is put before place i of those in front of the last, whose place is taken.
fn put_before(ts: &mut [Term], i: usize, t: Term)
    requires { i < length ts.old }
    ensures { ts.new ≡ take i ts.old ++ t ∷ drop i (take (length ts.old - 1) ts.old) }
{
    let last = ts.len() - 1;
    let mut carry = t;
    for j in i..last {
        let next = ts[j];
        ts[j] = carry;
        carry = next;
    }
    ts[last] = carry;
}

// The terms behind place i are moved down by one.
fn take_out(ts: &mut [Term], i: usize)
    requires { i < length ts.old }
    ensures length { length ts.new ≡ length ts.old }
    ensures moved { take (length ts.old - 1) ts.new ≡ take i ts.old ++ drop (suc i) ts.old }
{
    let last = ts.len() - 1;
    for j in i..last {
        let next = ts[j + 1];
        ts[j] = next;
    }
}

// A term is put before place i, unless its coefficient is zero.
#[tactic(auto, using(crate::proofs::Insertion::keeping))]
fn keep<const N: usize>(ts: &mut ArrayVec<Term, N>, i: usize, t: Term)
    requires within { i ≤ length ts.old.items }
    requires room { length ts.old.items < N }
    ensures { ts.new.items ≡ take i ts.old.items ++ keep_k t (drop i ts.old.items) }
{
    if t.coef != 0 {
        ts.push(t);
        put_before(ts.as_mut_slice(), i, t);
    }
}

// A term is joined with the one at place i, which has the same symbols.
#[tactic(auto, using(crate::proofs::Insertion::joining))]
fn join<const N: usize>(ts: &mut ArrayVec<Term, N>, i: usize, t: Term)
    requires { i < length ts.old.items }
    ensures { ts.new.items ≡ take i ts.old.items ++ keep_k (joined_k base t (get_or ts.old.items i zero_term)) (drop (suc i) ts.old.items) }
{
    let joined = word::plus(t.coef, ts[i].coef);
    if joined == 0 {
        take_out(ts.as_mut_slice(), i);
        ts.pop();
    } else {
        ts[i].coef = joined;
    }
}

// A term is collected.
fn insert<const N: usize>(ts: &mut ArrayVec<Term, N>, t: Term)
    requires { length ts.old.items < N }
    ensures { ts.new.items ≡ insert_k base t ts.old.items }
{
    let i = place(ts, t.mono);
    if i < ts.len() && ts[i].mono == t.mono {
        join(ts, i, t);
    } else {
        keep(ts, i, t);
    }
}

// The sum of at most 16 terms.
fn holding(ts: &[Term]) -> Sum
    requires { length ts.now ≤ 16 }
    ensures { result ≡ as_sum ts.now }
{
    let mut terms = [Term::default(); 16];
    terms[..ts.len()].copy_from_slice(ts);
    Sum { n: ts.len(), terms }
}

// The sum that terms make, if they are at most 16.
impl TryFrom<&[Term]> for Sum {
    type Error = TooLarge;

    ghost try_from_gives = { λ ts r. r ≡ added_of (fit_k ts.now) };

    #[tactic(auto, unfolding(crate::specs::Packed::fit_k, crate::specs::Packed::added_of))]
    fn try_from(ts: &[Term]) -> Result<Sum, TooLarge> {
        if ts.len() > Sum::TERMS {
            return Err(TooLarge);
        }
        Ok(holding(ts))
    }
}

// The product of two terms is collected.
#[tactic(auto, using(crate::proofs::Product::one_product, crate::proofs::Insertion::insert_length))]
fn grow<const N: usize>(ts: &mut ArrayVec<Term, N>, t: Term, u: Term) -> Result<(), TooLarge>
    requires { length ts.old.items < N }
    ensures ok { OnOk result (fits ts.new.items ≡ gather_k base (term_product_k base t u) ts.old.items) }
    ensures few { OnOk result (length ts.new.items ≤ length ts.old.items + 1) }
    ensures err { OnErr result (too_large ≡ gather_k base (term_product_k base t u) ts.old.items) }
{
    let product = word::times(t.coef, u.coef);
    if product == 0 {
        return Ok(());
    }
    let Some(mono) = key::merge(t.mono, u.mono) else {
        return Err(TooLarge);
    };
    insert(
        ts,
        Term {
            coef: product,
            mono,
        },
    );
    Ok(())
}

// The products of a term with each of others are collected.
fn grow_row<const N: usize>(
    ts: &mut ArrayVec<Term, N>,
    t: Term,
    us: &[Term],
) -> Result<(), TooLarge>
    requires { length ts.old.items + length us.now ≤ N }
    ensures ok { OnOk result (fits ts.new.items ≡ gather_k base (products_k (term_product_k base t) us.now) ts.old.items) }
    ensures few { OnOk result (length ts.new.items ≤ length ts.old.items + length us.now) }
    ensures err { OnErr result (too_large ≡ gather_k base (products_k (term_product_k base t) us.now) ts.old.items) }
{
    for u in us {
        grow(ts, t, *u)?;
    }
    Ok(())
}

impl Sum {
    // The most terms that a sum has.
    pub const TERMS: usize = 16;
    // The most symbols that a term has.
    pub const SYMBOLS: u32 = 4;
    // The most products of two terms that a product of sums has.
    pub const PRODUCTS: usize = 64;

    // The terms: the entries before n.
    #[tactic(auto, unfolding(crate::specs::Packed::terms_of))]
    pub fn terms(&self) -> &[Term]
        ensures { result.now ≡ terms_of self.now }
    {
        &self.terms[..self.n.min(Sum::TERMS)]
    }

    // The empty sum, which is zero.
    pub fn empty() -> Sum
        ensures { result ≡ as_sum [] }
    {
        holding(&[])
    }

    // A constant.
    #[tactic(auto, using(crate::proofs::Held::constants))]
    pub fn constant(c: u32) -> Sum
        ensures { result ≡ as_sum (constant_k base c) }
    {
        if c == 0 {
            return Sum::empty();
        }
        holding(&[Term { coef: c, mono: 0 }])
    }

    // The sum of one term with the packed symbols given, and coefficient 1.
    #[tactic(auto, unfolding(crate::specs::Packed::symbol_k))]
    pub fn symbol(mono: u32) -> Sum
        ensures { result ≡ as_sum (symbol_k mono) }
    {
        holding(&[Term { coef: 1, mono }])
    }

    // The sum of two sums.
    #[tactic(auto, using(crate::proofs::Held::terms_most, crate::proofs::Insertion::collecting), unfolding(crate::specs::Packed::add_k))]
    pub fn add(self, other: Sum) -> Result<Sum, TooLarge>
        ensures { result ≡ added_of (add_k base (terms_of self) (terms_of other)) }
    {
        let mut ts = ArrayVec::<Term, 32>::new();
        ts.try_extend_from_slice(self.terms()).unwrap();
        for t in other.terms() {
            insert(&mut ts, *t);
        }
        Sum::try_from(ts.as_slice())
    }

    // The negation of a sum.
    #[tactic(auto, using(crate::proofs::Held::terms_most))]
    pub fn negate(self) -> Sum
        ensures { result ≡ as_sum (negate_k base (terms_of self)) }
    {
        let mut s = holding(self.terms());
        for t in &mut s.terms {
            t.coef = word::negated(t.coef);
        }
        s
    }

    // The difference of two sums.
    #[tactic(auto, using(crate::proofs::Held::negated_terms), unfolding(crate::specs::Packed::add_k, crate::specs::Packed::subtract_k))]
    pub fn subtract(self, other: Sum) -> Result<Sum, TooLarge>
        ensures { result ≡ added_of (subtract_k base (terms_of self) (terms_of other)) }
    {
        self.add(other.negate())
    }

    // The product of two sums.
    pub fn multiply(self, other: Sum) -> Result<Sum, TooLarge>
        ensures { result ≡ added_of (multiply_k base (terms_of self) (terms_of other)) }
    {
        let ts = self.terms();
        let us = other.terms();
        if ts.len() * us.len() > Sum::PRODUCTS {
            return Err(TooLarge);
        }
        let mut all = ArrayVec::<Term, 64>::new();
        for t in ts {
            grow_row(&mut all, *t, us)?;
        }
        Sum::try_from(all.as_slice())
    }

    // Whether two sums are the same, term by term.
    #[tactic(auto, using(crate::proofs::Held::same_slices), unfolding(crate::specs::Packed::same_term_k))]
    pub fn same(&self, other: &Sum) -> bool
        ensures { result ≡ same_k (terms_of self.now) (terms_of other.now) }
    {
        self.terms() == other.terms()
    }
}
