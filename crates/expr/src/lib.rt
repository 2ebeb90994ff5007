// Expressions in prefix code words: how far one extends, its value, and its normal sum in an environment of sums. 0 then a constant;
// 1 then a variable; 2 sum, 3 difference, 4 product, each followed by two expressions; 5 negation, followed by one; at most 64
// words. Each contract is the reading of `model`, malformed words included. Assumes nothing.
#![tactic(auto)]

ghost use Rattle.std.specs.Prelude.{◌≡◌, true, ◌+◌, ◌≤◌, ◌<◌, OnOk, get_or};
ghost use Rattle.model.specs.Word.{base};
ghost use Rattle.model.specs.Expr.{read_at, is_parsed, tree_of, value as value_of};
ghost use Rattle.sum.specs.Packed.{terms_of, added_of};
ghost use Rattle.env.specs.Env.{sums_of};
ghost use Rattle.expr.specs.Answers.{reading, standing, used_of, extent_of, valued_of, joined_by};
ghost use Rattle.expr.specs.Normals.{sum_of_k, normal_of, combined_by};

use env::Env;
use sum::{Sum, TooLarge};

// Stays: the code words are numbers, in `read`, `applied` and `form`; with an enum of them the value of an expression of 63 words (bench/arith) took
// half as long again.

// The code word of a constant, which stands behind it.
const CONSTANT: u32 = 0;

// The code word of a variable, whose number stands behind it.
const VARIABLE: u32 = 1;

// The code word of a sum.
const SUM: u32 = 2;

// The code word of a difference.
const DIFFERENCE: u32 = 3;

// The code word of a product.
const PRODUCT: u32 = 4;

// The code word of a negation.
const NEGATION: u32 = 5;

// The value of an expression, and how many words it uses.
#[derive(Clone, Copy, PartialEq, Eq)]
pub struct Valued {
    pub word: u32,
    pub used: usize,
}

// The normal sum of an expression, and how many words it uses.
#[derive(Clone, Copy)]
pub struct Normal {
    pub sum: Sum,
    pub used: usize,
}

// Why words have no normal sum: they are malformed, or are an expression whose sum is too large.
#[derive(Clone, Copy, PartialEq, Eq)]
pub enum Unformed {
    Malformed,
    TooLarge { used: usize },
}

// The most words that an expression may have.
pub const WORDS: usize = 64;

// The last variable.
pub const LAST_VARIABLE: u32 = 15;

// The extent of the expression at the front of the words: one that does not end in the first 64 is malformed, and has none.
pub fn extent(words: &[u32]) -> Option<usize>
    ensures { result ≡ extent_of (read_at words.now 0) }
{
    read(&words[..words.len().min(WORDS)])
}

// The extent of the expression at the front of the words, however many they are. Each operand is read in turn, the right one from
// where the left one ends; it has fewer words, so the depth is at most their number.
fn read(words: &[u32]) -> Option<usize>
    ensures { result ≡ extent_of (reading words.now) }
{
    if words.len() == 0 {
        return None;
    }
    match words[0] {
        CONSTANT => {
            if words.len() < 2 {
                return None;
            }
            Some(2)
        }
        VARIABLE => {
            if words.len() < 2 {
                return None;
            }
            if words[1] <= LAST_VARIABLE {
                return Some(2);
            }
            None
        }
        SUM | DIFFERENCE | PRODUCT => {
            let left = read(&words[1..])?;
            let right = read(&words[1 + left..])?;
            Some(1 + left + right)
        }
        NEGATION => Some(1 + read(&words[1..])?),
        _ => None,
    }
}

// The value of the expression at the front of the words, at the variables, with its extent.
pub fn value(words: &[u32], variables: &[u32; 16]) -> Option<Valued>
    ensures { result ≡ valued_of variables.now (read_at words.now 0) }
{
    let used = extent(words)?;
    Some(Valued {
        word: worth(words, 0, variables),
        used,
    })
}

// The value of the expression at a start of a code area, at the variables, where there is one.
pub fn worth(code: &[u32], start: u32, variables: &[u32; 16]) -> u32
    requires { is_parsed (read_at code.now start) ≡ true }
    ensures { result ≡ value_of base variables.now (tree_of (read_at code.now start)) }
{
    let mut at = start as usize;
    operand(code, &mut at, variables)
}

// Stays: the four functions below, and `form`, each ask that an expression stands at the place; a struct would hold the place that they move, lent.
// The value of the expression at a place, which moves behind it. A constant or a variable is looked up here, so that only operations
// are calls.
#[cycle(work)]
#[tactic(auto, using(crate::proofs::Standing::two_within))]
#[inline(always)]
fn operand(code: &[u32], at: &mut usize, variables: &[u32; 16]) -> u32
    requires { is_parsed (standing code.now at.old) ≡ true }
    ensures { (result ≡ value_of base variables.now (tree_of (standing code.now at.old))) × (at.new ≡ at.old + used_of (standing code.now at.old)) }
{
    let begin = *at;
    if code[begin] > VARIABLE {
        return applied(code, at, variables);
    }
    *at = begin + 2;
    leaf(code, begin, variables)
}

// The value of the constant or the variable at a place.
#[tactic(auto, using(crate::proofs::Standing::two_within))]
fn leaf(code: &[u32], at: usize, variables: &[u32; 16]) -> u32
    requires { (is_parsed (standing code.now at) ≡ true) × (get_or code.now at 0 < 2) }
    ensures { result ≡ value_of base variables.now (tree_of (standing code.now at)) }
{
    let word = code[at + 1];
    if code[at] == CONSTANT {
        return word;
    }
    variables[word as usize]
}

// The value of the operation at a place, which moves behind it.
#[cycle(work)]
#[tactic(auto, using(crate::proofs::Standing::two_within))]
#[inline(never)]
fn applied(code: &[u32], at: &mut usize, variables: &[u32; 16]) -> u32
    requires { (is_parsed (standing code.now at.old) ≡ true) × (2 ≤ get_or code.now at.old 0) }
    ensures { (result ≡ value_of base variables.now (tree_of (standing code.now at.old))) × (at.new ≡ at.old + used_of (standing code.now at.old)) }
{
    let begin = *at;
    let kind = code[begin];
    *at = begin + 1;
    let left = operand(code, at, variables);
    if kind == NEGATION {
        return word::negated(left);
    }
    let right = operand(code, at, variables);
    joined(kind, left, right)
}

// Two words joined by the operation of a code word.
fn joined(kind: u32, left: u32, right: u32) -> u32
    ensures { result ≡ joined_by kind left right }
{
    match kind {
        SUM => word::plus(left, right),
        DIFFERENCE => word::minus(left, right),
        _ => word::times(left, right),
    }
}

// The normal sum of the expression at the front of the words, with its extent.
pub fn normal_sum(words: &[u32], env: &Env) -> Result<Normal, Unformed>
    ensures { result ≡ normal_of (sums_of env.now) (read_at words.now 0) }
{
    let Some(used) = extent(words) else {
        return Err(Unformed::Malformed);
    };
    match sum_at(words, 0, env) {
        Ok(sum) => Ok(Normal { sum, used }),
        Err(_) => Err(Unformed::TooLarge { used }),
    }
}

// The normal sum of the expression at a start of a code area, where there is one.
pub fn sum_at(code: &[u32], start: u32, env: &Env) -> Result<Sum, TooLarge>
    requires { is_parsed (read_at code.now start) ≡ true }
    ensures { result ≡ added_of (sum_of_k base (sums_of env.now) (tree_of (read_at code.now start))) }
{
    let mut at = start as usize;
    form(code, &mut at, env)
}

// The normal sum of the expression at a place, which moves behind it where the sum fits. An operand that is too large makes the whole so.
#[tactic(auto, using(crate::proofs::Standing::two_within))]
fn form(code: &[u32], at: &mut usize, env: &Env) -> Result<Sum, TooLarge>
    requires { is_parsed (standing code.now at.old) ≡ true }
    ensures { (result ≡ added_of (sum_of_k base (sums_of env.now) (tree_of (standing code.now at.old)))) × OnOk result (at.new ≡ at.old + used_of (standing code.now at.old)) }
{
    let begin = *at;
    let kind = code[begin];
    if kind == CONSTANT {
        *at = begin + 2;
        return Ok(Sum::constant(code[begin + 1]));
    }
    if kind == VARIABLE {
        *at = begin + 2;
        return Ok(env.get(code[begin + 1] as usize));
    }
    *at = begin + 1;
    let left = form(code, at, env)?;
    if kind == NEGATION {
        return Ok(left.negate());
    }
    let right = form(code, at, env)?;
    combined(kind, left, right)
}

// Stays: for sums what `joined` is for words; three arms, and a trait of both would be longer than they are.
// Two sums joined by the operation of a code word.
fn combined(kind: u32, left: Sum, right: Sum) -> Result<Sum, TooLarge>
    ensures { result ≡ added_of (combined_by kind (terms_of left) (terms_of right)) }
{
    match kind {
        SUM => left.add(right),
        DIFFERENCE => left.subtract(right),
        _ => left.multiply(right),
    }
}
