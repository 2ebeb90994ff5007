// What is judged: three images, a pair of them and a path of the pair, each with what holds of it. They stand in a module of their own, since
// the facts of a struct's fields may not cite what names it.

ghost use Rattle.std.specs.Prelude.{◌<◌};
ghost use Rattle.std.proofs.Props.{props};
ghost use Rattle.model.specs.Correspondence.{pairs, paths as path_count};
ghost use Rattle.judge.specs.Images.{Checks, OwnSymbols, PartnerSymbols, Walked};

use env::Env;

// Two tables and a correspondence in which nothing is found, and the environment in which each of the first's variables is its symbol.
#[derive(Clone, Copy)]
pub struct Images<'a> {
    pub first: &'a [u32],
    pub second: &'a [u32],
    pub list: &'a [u32],
    pub own: &'a Env,
    ghost checks: { Checks first.now second.now list.now } by { Prim.hlevel props },
    ghost own_symbols: { OwnSymbols own.now } by { Prim.hlevel props },
}

// Pair i of the correspondence.
#[derive(Clone, Copy)]
pub struct PairOf<'a> {
    pub images: Images<'a>,
    pub i: u32,
    ghost inside: { i < pairs images.list.now },
}

// A path of a pair that can be walked in the first table, and the environment in which each of the second's variables is its partner's symbol,
// or its own.
#[derive(Clone, Copy)]
pub struct PathOf<'a> {
    pub pair: PairOf<'a>,
    pub linked: &'a Env,
    pub j: u32,
    ghost partner_symbols: { PartnerSymbols pair.images.list.now pair.i linked.now } by { Prim.hlevel props },
    ghost among: { j < path_count pair.images.list.now },
    ghost walked: { Walked pair.images.first.now pair.images.list.now pair.i j } by { Prim.hlevel props },
}
