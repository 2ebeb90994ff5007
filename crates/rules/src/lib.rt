// The rules on what the two sides of a path read, write and keep: whether reads and writes are the same (17, 18), and whether links are
// kept (19). Sides are read where they are held. Each contract is an equation with the definitions of specs/Rules. Assumes nothing.
#![tactic(auto)]

ghost use Rattle.std.specs.Prelude.{◌≡◌, ◌+◌, ◌<◌, ◌^◌};
ghost use Rattle.model.specs.Sum.{same};
ghost use Rattle.sum.specs.Packed.{same_k};
ghost use Rattle.side.specs.Parts.{written_on};
ghost use Rattle.rules.specs.Rules.{same_reads_in, same_writes_in, keeps_in, keeps_all_in};

use env::Env;
use side::Port;

// Whether the numbers of reads are the same on each port.
pub fn same_reads(first: &[usize; 4], second: &[usize; 4]) -> bool
    ensures { result ≡ same_reads_in first.now second.now }
{
    first == second
}

// Whether the sums written to a port are the same, in order.
fn same_port(first: &Port, second: &Port) -> bool
    ensures { result ≡ same same_k (written_on first.now) (written_on second.now) }
{
    let one = first.as_slice();
    let other = second.as_slice();
    let n = one.len();
    let m = other.len();
    n == m && one.iter().zip(other).all(|(s, t)| s.same(t))
}

// Whether the sums written are the same on each port, in order.
pub fn same_writes(first: &[Port; 4], second: &[Port; 4]) -> bool
    ensures { result ≡ same_writes_in first.now second.now }
{
    first.iter().zip(second).all(|(p, q)| same_port(p, q))
}

// Whether variable v of the first environment and variable u of the second have the same sum.
pub fn keeps_link(first: &Env, v: usize, second: &Env, u: usize) -> bool
    ensures { result ≡ keeps_in first.now v second.now u }
{
    let a = first.get(v);
    let b = second.get(u);
    a.same(&b)
}

// Whether each of some links of a correspondence is kept, where its links begin at a place.
pub fn keeps_links(image: &[u32], at: u32, link: u32, links: u32, first: &Env, second: &Env) -> bool
    requires { link + links < 2 ^ 32 }
    ensures { result ≡ keeps_all_in image.now at link links first.now second.now }
{
    (link..link + links).all(|i| {
        let record = list::link(image, at, i);
        keeps_link(first, record.first as usize, second, record.second as usize)
    })
}
