// Works the sums and expressions that bench/arith measures, and prints a check number that plain Rust must print too.
// `arith WHICH ROUNDS`: 0 a 16-term sum plus a 16-term sum, 1 an 8 by 8 product, 2 the normal sum and 3 the value of a 63-word
// expression. With no arguments each is worked 10 times.
#![tactic(auto)]

use expr::Unformed;
use std::io::Print;
use std::rt::Env;
use sum::{Sum, Term};

// Ten products of two and a negation under sums and differences, over all sixteen variables: 63 words, 11 terms.
const EXPRESSION: [u32; 63] = [
    3, 2, 3, 2, 3, 2, 3, 2, 3, 2, 4, 1, 0, 1, 1, 4, 0, 3, 1, 2, 4, 1, 3, 1, 4, 4, 0, 7, 1, 5, 4, 1,
    6, 0, 65536, 4, 1, 7, 1, 8, 4, 0, 2, 1, 9, 4, 1, 10, 1, 11, 4, 0, 5, 1, 12, 4, 1, 13, 1, 14, 5,
    1, 15,
];

// The symbol lists of the factors of the product, over x and y: 1, x, y, xx, xy, yy, xxx, yyy.
const MONOS: [u32; 8] = [0, 1, 2, 129, 130, 258, 16513, 33026];

// What their coefficients are multiples of: a product of five symbols or more vanishes, and 15 terms are left.
const SCALES: [u32; 8] = [1, 1, 1, 256, 256, 256, 16777216, 16777216];

// Stays: it takes any bytes and wraps, which `files::number` does not.
// The number that decimal digits write, modulo 2^32.
fn number(text: &[u8]) -> u32 {
    let mut n = 0;
    for digit in text {
        n = word::plus(word::times(n, 10), u32::from(*digit % 48 % 10));
    }
    n
}

// The number that an argument writes; 0 where it is missing or longer than 16 bytes.
fn argument(rt: &impl Env, i: usize) -> u32 {
    let mut text = [0u8; 16];
    match rt.arg(i, &mut text) {
        Ok(n) => number(&text[..n]),
        Err(_) => 0,
    }
}

// A number that depends on each term of a sum.
fn check(s: Sum) -> u32 {
    let mut total = (s.n % 64) as u32;
    for t in &s.terms {
        total = word::plus(word::plus(total, t.coef), t.mono);
    }
    total
}

// Sixteen terms, one for each of the symbols 0 to 15.
fn wide(k: u32) -> Sum {
    let zero = Term { coef: 0, mono: 0 };
    let mut ts = [zero; 16];
    let mut mono = 1;
    for t in &mut ts {
        *t = Term {
            coef: word::times(mono, k),
            mono,
        };
        mono = word::plus(mono, 1);
    }
    Sum { n: 16, terms: ts }
}

// Eight terms, with first coefficient c.
fn eight(c: u32, k: u32) -> Sum {
    let zero = Term { coef: 0, mono: 0 };
    let mut ts = [zero; 16];
    for i in 0..8 {
        let mono = MONOS[i];
        let scale = SCALES[i];
        ts[i] = Term {
            coef: word::times(scale, word::plus(mono, k)),
            mono,
        };
    }
    ts[0] = Term { coef: c, mono: 0 };
    Sum { n: 8, terms: ts }
}

fn added(rounds: u32) -> u32 {
    let mut a = wide(3);
    let b = wide(5);
    let mut total = 0;
    for i in 0..rounds {
        a = a.add(b).unwrap_or_else(|_| Sum::empty());
        total = word::plus(total, check(a));
    }
    total
}

fn multiplied(rounds: u32) -> u32 {
    let b = eight(5, 5);
    let mut total = 0;
    for i in 0..rounds {
        match eight(i, 3).multiply(b) {
            Ok(s) => total = word::plus(total, check(s)),
            Err(_) => total = word::plus(total, 1),
        }
    }
    total
}

// The symbols of the sixteen variables.
const SYMBOLS: [u32; 16] = [0, 1, 2, 3, 4, 5, 6, 7, 8, 9, 10, 11, 12, 13, 14, 15];

fn formed(rounds: u32) -> u32 {
    let env = env::Env::symbols(&SYMBOLS);
    let words = EXPRESSION;
    let mut total = 0;
    for i in 0..rounds {
        match expr::normal_sum(&words, &env) {
            Ok(normal) => total = word::plus(total, check(normal.sum)),
            Err(Unformed::TooLarge { .. }) => total = word::plus(total, 1),
            Err(Unformed::Malformed) => {}
        }
    }
    total
}

fn valued(rounds: u32) -> u32 {
    let mut variables = [1, 2, 3, 4, 5, 6, 7, 8, 9, 10, 11, 12, 13, 14, 15, 16];
    let words = EXPRESSION;
    let mut total = 0;
    for i in 0..rounds {
        let v = (i % 16) as usize;
        variables[v] = total;
        if let Some(valued) = expr::value(&words, &variables) {
            total = word::plus(total, valued.word);
        }
    }
    total
}

fn show(rt: &impl Print, n: u32) {
    let _ = rt.println(n);
}

fn work(rt: &impl Print, which: u32, rounds: u32) {
    match which {
        0 => show(rt, added(rounds)),
        1 => show(rt, multiplied(rounds)),
        2 => show(rt, formed(rounds)),
        _ => show(rt, valued(rounds)),
    }
}

fn main(rt: HostRuntime) {
    if shell::argument_count(&rt) < 3 {
        work(&rt, 0, 10);
        work(&rt, 1, 10);
        work(&rt, 2, 10);
        work(&rt, 3, 10);
        return;
    }
    work(&rt, argument(&rt, 1), argument(&rt, 2));
}
