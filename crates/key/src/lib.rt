// Symbol lists packed into numbers: how many symbols a packed list has, the list of one symbol, and two lists merged into one. The
// digits and their order are those of `specs/Key.antt`. Every function takes any number. Assumes nothing.
#![tactic(auto)]

ghost use Rattle.std.specs.Prelude.{◌≡◌};
ghost use Rattle.key.specs.Key.{symbol_of, count_of, merged_of};

// The base that the digits are of: a symbol x below 127 is the digit x + 1.
const BASE: u32 = 128;

// A term has at most this many symbols.
const SYMBOLS: u32 = 4;

// The least numbers of three, four and five digits.
const THREE: u32 = BASE * BASE;

const FOUR: u32 = BASE * THREE;

const FIVE: u32 = BASE * FOUR;

// The list of one symbol, packed; 0 for a symbol that has no digit.
// Stays: symbol_of of specs/Key is this number, 0 too, and environments are filled with it as it is.
#[tactic(auto, unfolding(crate::specs::Key::symbol_of, crate::specs::Key::pack, crate::specs::Key::pack_on))]
pub fn symbol(x: u32) -> u32
    ensures { result ≡ symbol_of x }
{
    if x < BASE - 1 { x + 1 } else { 0 }
}

// Stays: 5 for too many is what `count_of` says.
// How many symbols a packed list has, and 5 for every number past the packed lists of 4.
#[tactic(auto, unfolding(crate::specs::Key::count_of))]
pub fn count(mono: u32) -> u32
    ensures { result ≡ count_of mono }
{
    match mono {
        0 => 0,
        1..BASE => 1,
        BASE..THREE => 2,
        THREE..FOUR => 3,
        FOUR..FIVE => 4,
        _ => 5,
    }
}

// The packed list of the symbols of two packed lists, unless it has more symbols than a term has. The digits go over from the last, the
// greater of the two last ones each time.
#[tactic(auto, using(crate::proofs::Digits::merging))]
pub fn merge(a: u32, b: u32) -> Option<u32>
    ensures { result ≡ merged_of a b }
{
    if SYMBOLS < count(a) + count(b) {
        return None;
    }
    if b == 0 {
        return Some(a);
    }
    let mut first = a;
    let mut second = b;
    let mut scale: u32 = 1;
    let mut merged: u32 = 0;
    while first != 0 {
        let x = first % BASE;
        let y = second % BASE;
        if x < y {
            merged += y * scale;
            second /= BASE;
        } else {
            merged += x * scale;
            first /= BASE;
        }
        scale *= BASE;
    }
    Some(merged + second * scale)
}
