// The check of a correspondence image: the first fault, 6 to 9, in the order header, links, paths, pairs, for words of any number and
// content; the fields of its records; and the symbols of the variables at the start of a pair's paths. Each contract is the model's
// definition of the same thing. Assumes nothing.
#![tactic(auto)]

ghost use Rattle.std.specs.Prelude.{◌≡◌, map, ◌+◌, ◌≤◌, ◌<◌, ◌^◌, leb};
ghost use Rattle.model.specs.Answer.{up_to, all_kept};
ghost use Rattle.model.specs.Correspondence.{links_at, link_at, list_rules, side_rules, mark_rules, list_fault};
ghost use Rattle.model.specs.Judgement.{partner};
ghost use Rattle.fault.specs.Fault.{checked_of};
ghost use Rattle.list.specs.Checks.{link_record, path_record, pair_record, limits_of, link_rules, path_rules, pair_rules, link_found, path_found, pair_found};

use fault::{Fault, Reason};
use table::{word_at, words_at};

// The fields of a link: the first's variable and the second's.
#[derive(Clone, Copy)]
pub struct LinkRecord {
    pub first: u32,
    pub second: u32,
}

// The fields of a path: edges in the first and its choices, edges in the second and its choices, target pair, mark.
#[derive(Clone, Copy)]
pub struct PathRecord {
    pub length: u32,
    pub choices: u32,
    pub second_length: u32,
    pub second_choices: u32,
    pub target: u32,
    pub mark: u32,
}

// The fields of a pair: the first's state and the second's, the range of its links (the first of them and how many), and the range
// of its paths.
#[derive(Clone, Copy)]
pub struct PairRecord {
    pub first: u32,
    pub second: u32,
    pub link: u32,
    pub links: u32,
    pub path: u32,
    pub paths: u32,
}

// What the records are held to: how many states the first table has and the second, how many pairs, links and paths there are, and
// where the links and the paths begin.
#[derive(Clone, Copy)]
struct Limits {
    first: u32,
    second: u32,
    pairs: u32,
    links: u32,
    paths: u32,
    links_at: u32,
    paths_at: u32,
}

// The fields of link i, where the links begin at a place.
#[tactic(auto, unfolding(crate::specs::Checks::link_record))]
pub fn link(list: &[u32], at: u32, i: u32) -> LinkRecord
    ensures { result ≡ link_record list.now at i }
{
    let [first, second] = words_at::<2>(list, (at as usize) + 2 * (i as usize));
    LinkRecord { first, second }
}

// The fields of path i, where the paths begin at a place.
#[tactic(auto, unfolding(crate::specs::Checks::path_record))]
pub fn path(list: &[u32], at: u32, i: u32) -> PathRecord
    ensures { result ≡ path_record list.now at i }
{
    let [length, choices, second_length, second_choices, target, mark] = words_at::<6>(
        list,
        (at as usize) + 6 * (i as usize),
    );
    PathRecord {
        length,
        choices,
        second_length,
        second_choices,
        target,
        mark,
    }
}

// The fields of pair i.
#[tactic(auto, unfolding(crate::specs::Checks::pair_record))]
pub fn pair(list: &[u32], i: u32) -> PairRecord
    ensures { result ≡ pair_record list.now i }
{
    let [first, second, link, links, path, paths] = words_at::<6>(list, 8 + 6 * (i as usize));
    PairRecord {
        first,
        second,
        link,
        links,
        path,
        paths,
    }
}

// Whether the header is right: the kind, the length, the counts, and the offsets that they fix.
#[tactic(auto, unfolding(model::specs::Correspondence::list_rules, model::specs::Correspondence::pairs, model::specs::Correspondence::links, model::specs::Correspondence::paths, model::specs::Correspondence::links_at, model::specs::Correspondence::paths_at, model::specs::Answer::all_kept, model::specs::Answer::kept))]
fn header_fits(list: &[u32]) -> bool
    ensures { result ≡ all_kept (list_rules list.now) }
{
    let pairs = word_at(list, 2) as usize;
    let links = word_at(list, 4) as usize;
    let paths = word_at(list, 6) as usize;
    let links_at = 8 + 6 * pairs;
    let paths_at = links_at + 2 * links;
    let end = paths_at + 6 * paths;
    word_at(list, 0) == 2
        && word_at(list, 1) as usize == list.len()
        && 1 <= pairs
        && pairs <= 64
        && word_at(list, 3) == 8
        && links <= 1024
        && word_at(list, 5) as usize == links_at
        && paths <= 512
        && word_at(list, 7) as usize == paths_at
        && list.len() == end
}

// What the records are held to, the counts and offsets as the header has them.
#[tactic(auto, unfolding(crate::specs::Checks::limits_of))]
fn read_limits(first: u32, second: u32, list: &[u32]) -> Limits
    ensures { result ≡ limits_of first second list.now }
{
    Limits {
        first,
        second,
        pairs: word_at(list, 2),
        links: word_at(list, 4),
        paths: word_at(list, 6),
        links_at: word_at(list, 5),
        paths_at: word_at(list, 7),
    }
}

// Whether a link's variables are right.
#[tactic(auto, unfolding(crate::specs::Checks::link_rules, model::specs::Answer::all_kept, model::specs::Answer::kept))]
fn link_fits(link: LinkRecord) -> bool
    ensures { result ≡ all_kept (link_rules link) }
{
    link.first <= 15 && link.second <= 15
}

// Whether a side of a path is right: 1 to 32 edges, and no bit past the length.
#[tactic(auto, unfolding(model::specs::Correspondence::side_rules, model::specs::Answer::all_kept, model::specs::Answer::kept))]
fn side_fits(length: u32, choices: u32) -> bool
    ensures { result ≡ all_kept (side_rules length choices) }
{
    1 <= length && length <= 32 && u64::from(choices) < 1 << length
}

// Whether what the mark asks is right, where there are so many pairs.
#[tactic(auto, unfolding(model::specs::Correspondence::mark_rules, model::specs::Answer::all_kept, model::specs::Answer::kept))]
fn mark_fits(pairs: u32, mark: u32, length: u32, choices: u32, target: u32) -> bool
    ensures { result ≡ all_kept (mark_rules pairs mark length choices target) }
{
    // Stays: the record's number is checked here.
    match mark {
        0 => target < pairs && side_fits(length, choices),
        1 => length == 0 && choices == 0 && target == 0,
        _ => false,
    }
}

// Whether the fields of a path are right: its first side, then what its mark asks.
#[tactic(auto, using(crate::proofs::Fields::kept_both), unfolding(crate::specs::Checks::path_rules))]
fn path_fits(pairs: u32, path: PathRecord) -> bool
    ensures { result ≡ all_kept (path_rules pairs path) }
{
    side_fits(path.length, path.choices)
        && mark_fits(
            pairs,
            path.mark,
            path.second_length,
            path.second_choices,
            path.target,
        )
}

// Whether a range is right: its start plus its count, not wrapped, is at most the area's count.
fn range_fits(start: u32, count: u32, all: u32) -> bool
    ensures { result ≡ leb (start + count) all }
{
    let end = u64::from(start) + u64::from(count);
    end <= u64::from(all)
}

// Whether the fields of pair i are right.
#[tactic(auto, unfolding(crate::specs::Checks::pair_rules, model::specs::Correspondence::reset_rules, model::specs::Answer::all_kept, model::specs::Answer::kept))]
fn pair_fits(limits: Limits, pair: PairRecord, i: u32) -> bool
    ensures { result ≡ all_kept (pair_rules limits pair i) }
{
    pair.first < limits.first
        && pair.second < limits.second
        && range_fits(pair.link, pair.links, limits.links)
        && range_fits(pair.path, pair.paths, limits.paths)
        && (i != 0 || pair.first == 0 && pair.second == 0)
}

// The check of link i.
#[tactic(auto, unfolding(crate::specs::Checks::link_found, model::specs::Answer::check, fault::specs::Fault::checked_of))]
fn check_link(limits: Limits, list: &[u32], i: u32) -> Result<(), Fault>
    ensures { result ≡ checked_of (link_found limits list.now i) }
{
    if link_fits(link(list, limits.links_at, i)) {
        return Ok(());
    }
    Err(Fault {
        reason: Reason::WrongLink,
        record: i,
    })
}

// The check of path i.
#[tactic(auto, unfolding(crate::specs::Checks::path_found, model::specs::Answer::check, fault::specs::Fault::checked_of))]
fn check_path(limits: Limits, list: &[u32], i: u32) -> Result<(), Fault>
    ensures { result ≡ checked_of (path_found limits list.now i) }
{
    if path_fits(limits.pairs, path(list, limits.paths_at, i)) {
        return Ok(());
    }
    Err(Fault {
        reason: Reason::WrongPath,
        record: i,
    })
}

// The check of pair i: its own fields, then that its links hold no second variable twice.
fn check_pair(limits: Limits, list: &[u32], i: u32) -> Result<(), Fault>
    ensures { result ≡ checked_of (pair_found limits list.now i) }
{
    let here = pair(list, i);
    if !pair_fits(limits, here, i) {
        return Err(Fault {
            reason: Reason::WrongPair,
            record: i,
        });
    }
    let end = here.link + here.links;
    if !fault::are_distinct(
        here.link,
        end,
        |j| Some(link(list, limits.links_at, j).second),
    ) {
        return Err(Fault {
            reason: Reason::WrongPair,
            record: i,
        });
    }
    Ok(())
}

// The first fault of a correspondence between tables of so many states: the header's, or else along the links, the paths and the pairs.
pub fn check(first: u32, second: u32, list: &[u32]) -> Result<(), Fault>
    ensures { result ≡ checked_of (list_fault first second list.now) }
{
    if !header_fits(list) {
        return Err(Fault {
            reason: Reason::WrongList,
            record: 0,
        });
    }
    let limits = read_limits(first, second, list);
    fault::first_fault(limits.links, |i| check_link(limits, list, i))?;
    fault::first_fault(limits.paths, |i| check_path(limits, list, i))?;
    fault::first_fault(limits.pairs, |i| check_pair(limits, list, i))
}

// The first table's symbols: each variable is its own.
#[tactic(auto, unfolding(model::specs::Answer::up_to))]
pub fn own_symbols() -> [u32; 16]
    ensures { result ≡ up_to 0 16 }
{
    [0, 1, 2, 3, 4, 5, 6, 7, 8, 9, 10, 11, 12, 13, 14, 15]
}

// Stays: that a range does not wrap is asked here, by `covers` of cover and by `keeps_links` of rules, in public clauses on two numbers.
// The second table's symbols at the start of a pair's paths, where the links begin at a place: each variable is its linked partner, or
// its own symbol if not linked. From the last link to the first, so that the first link of a variable counts.
pub fn partners(list: &[u32], at: u32, first: u32, count: u32) -> [u32; 16]
    requires { (at ≡ links_at list.now) × (first + count < 2 ^ 32) }
    ensures { result ≡ map (partner (map (link_at list.now) (up_to first count))) (up_to 0 16) }
{
    let mut symbols = [
        16, 17, 18, 19, 20, 21, 22, 23, 24, 25, 26, 27, 28, 29, 30, 31,
    ];
    for i in (0..count).rev() {
        let here = link(list, at, first + i);
        if here.second > 15 {
            continue;
        }
        symbols[here.second as usize] = here.first;
    }
    symbols
}
