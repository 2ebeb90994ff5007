// Word arithmetic of the chip at 32 bits: sums, differences, products and negations that wrap, the signed number of a word, and the
// three tests. Each contract is the definition of `model` at width 32. Assumes nothing.
#![tactic(auto)]

ghost use Rattle.std.specs.Prelude.{◌≡◌};
ghost use Rattle.model.specs.Word.{base, plus as plus_of, minus as minus_of, times as times_of, negated as negated_of, signed as signed_of, holds as holds_of};
ghost use Rattle.model.specs.Table.{kind_of as kind_numbered};
ghost use Rattle.word.specs.Kinds.{kind_of, kind_as};

// The sum of two words.
pub fn plus(a: u32, b: u32) -> u32
    ensures { result ≡ plus_of base a b }
{
    std::num::wrapping_add_u32(a, b)
}

// The difference of two words.
pub fn minus(a: u32, b: u32) -> u32
    ensures { result ≡ minus_of base a b }
{
    std::num::wrapping_sub_u32(a, b)
}

// The product of two words, through 64 bits.
pub fn times(a: u32, b: u32) -> u32
    ensures { result ≡ times_of base a b }
{
    (((a as u64) * (b as u64)) % 4294967296) as u32
}

// The negation of a word.
pub fn negated(a: u32) -> u32
    ensures { result ≡ negated_of base a }
{
    std::num::wrapping_sub_u32(0, a)
}

// The signed number of a word, without loss: from 2^31 upwards the word minus 2^32.
pub fn signed(x: u32) -> i64
    ensures { result ≡ signed_of base x }
{
    if x < 2147483648 {
        x as i64
    } else {
        (x as i64) - 4294967296
    }
}

// The three kinds of test.
#[derive(Clone, Copy, PartialEq, Eq)]
pub enum Kind {
    Equal,
    SignedLess,
    UnsignedLess,
}

// The kind of a test by its number: 0 equal, 1 signed less, any other unsigned less.
impl From<u32> for Kind {
    ghost from_gives = { λ n r. r ≡ kind_as (kind_numbered n) };

    fn from(n: u32) -> Kind {
        match n {
            0 => Kind::Equal,
            1 => Kind::SignedLess,
            _ => Kind::UnsignedLess,
        }
    }
}

// Whether a test is true of two words.
pub fn holds(kind: Kind, a: u32, b: u32) -> bool
    ensures { result ≡ holds_of base (kind_of kind) a b }
{
    match kind {
        Kind::Equal => a == b,
        Kind::SignedLess => signed(a) < signed(b),
        Kind::UnsignedLess => a < b,
    }
}
