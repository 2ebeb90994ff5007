// P1 to P10 of the paper's bench, worked out with the proved crates: the terms of each normal sum, coefficient and then symbols, or
// that it is too large; and the tests. What it prints is held to the file stdout.
#![tactic(auto)]

use expr::Unformed;
use std::io::Print;
use sum::Sum;
use word::Kind;

fn say(rt: &impl Print, text: &[u8]) {
    let _ = rt.write_all(text);
}

fn say_number(rt: &impl Print, n: u32) {
    let _ = rt.print(n);
}

// A digit of a packed list, as its symbol; nothing where there is none.
fn say_symbol(rt: &impl Print, digit: u32) {
    if digit != 0 {
        say(rt, b" ");
        say_number(rt, digit - 1);
    }
}

// A term: its coefficient, then its symbols.
fn say_term(rt: &impl Print, coef: u32, mono: u32) {
    say(rt, b"  ");
    say_number(rt, coef);
    say(rt, b" with");
    say_symbol(rt, mono / 2097152 % 128);
    say_symbol(rt, mono / 16384 % 128);
    say_symbol(rt, mono / 128 % 128);
    say_symbol(rt, mono % 128);
    say(rt, b"\n");
}

fn say_sum(rt: &impl Print, s: Sum) {
    for t in s.terms() {
        say_term(rt, t.coef, t.mono);
    }
}

// Stays: data of this program, as it is of `arith`.
// The symbols of the sixteen variables.
const SYMBOLS: [u32; 16] = [0, 1, 2, 3, 4, 5, 6, 7, 8, 9, 10, 11, 12, 13, 14, 15];

// The normal sum of an expression.
fn normal(rt: &impl Print, name: &[u8], words: &[u32]) {
    let env = env::Env::symbols(&SYMBOLS);
    say(rt, name);
    match expr::normal_sum(words, &env) {
        Ok(normal) => {
            say(rt, b" fits\n");
            say_sum(rt, normal.sum);
        }
        Err(Unformed::TooLarge { .. }) => say(rt, b" too large\n"),
        Err(Unformed::Malformed) => say(rt, b" malformed\n"),
    }
}

fn test(rt: &impl Print, name: &[u8], kind: Kind, a: u32, b: u32) {
    let holds = word::holds(kind, a, b);
    say(rt, name);
    if holds {
        say(rt, b" true\n");
    } else {
        say(rt, b" false\n");
    }
}

fn main(rt: HostRuntime) {
    normal(&rt, b"P1 x-x", &[3, 1, 0, 1, 0]);
    normal(&rt, b"P2 (x+y)(x-y)", &[4, 2, 1, 0, 1, 1, 3, 1, 0, 1, 1]);
    normal(
        &rt,
        b"P3 (65536x)(65536y)",
        &[4, 4, 0, 65536, 1, 0, 4, 0, 65536, 1, 1],
    );
    normal(
        &rt,
        b"P4 2147483648xx+2147483648x",
        &[2, 4, 0, 2147483648, 4, 1, 0, 1, 0, 4, 0, 2147483648, 1, 0],
    );
    normal(
        &rt,
        b"P5 the sum of 16 variables",
        &[
            2, 1, 0, 2, 1, 1, 2, 1, 2, 2, 1, 3, 2, 1, 4, 2, 1, 5, 2, 1, 6, 2, 1, 7, 2, 1, 8, 2, 1,
            9, 2, 1, 10, 2, 1, 11, 2, 1, 12, 2, 1, 13, 2, 1, 14, 1, 15,
        ],
    );
    normal(
        &rt,
        b"P6 with 1 added",
        &[
            2, 2, 1, 0, 2, 1, 1, 2, 1, 2, 2, 1, 3, 2, 1, 4, 2, 1, 5, 2, 1, 6, 2, 1, 7, 2, 1, 8, 2,
            1, 9, 2, 1, 10, 2, 1, 11, 2, 1, 12, 2, 1, 13, 2, 1, 14, 1, 15, 0, 1,
        ],
    );
    normal(&rt, b"P7 xxxx", &[4, 1, 0, 4, 1, 0, 4, 1, 0, 1, 0]);
    normal(
        &rt,
        b"P8 xxxxx",
        &[4, 1, 0, 4, 1, 0, 4, 1, 0, 4, 1, 0, 1, 0],
    );
    test(
        &rt,
        b"P9 4294967295 signed less 0:",
        Kind::SignedLess,
        4294967295,
        0,
    );
    test(
        &rt,
        b"P9 4294967295 unsigned less 0:",
        Kind::UnsignedLess,
        4294967295,
        0,
    );
    test(
        &rt,
        b"P10 2147483648 signed less 1:",
        Kind::SignedLess,
        2147483648,
        1,
    );
    test(
        &rt,
        b"P10 their difference signed less 0:",
        Kind::SignedLess,
        word::minus(2147483648, 1),
        0,
    );
}
