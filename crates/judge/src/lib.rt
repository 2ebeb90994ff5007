// The judgement of a correspondence between two tables: the checks of the three images, then each pair by rules 10 and 11 and its paths
// by rules 12 to 19, to the first broken rule. The answer is the model's verdict on any three images. Assumes nothing.
#![tactic(auto)]

ghost use Rattle.std.specs.Prelude.{◌≡◌, true, false, ◌&&◌, ◌+◌, ◌<◌, ◌^◌, eqb};
ghost use Rattle.model.specs.Answer.{word};
ghost use Rattle.model.specs.Table.{edges_at, table_of};
ghost use Rattle.model.specs.Run.{is_stop};
ghost use Rattle.model.specs.Path.{choices as choices_of, walkable, end_state};
ghost use Rattle.model.specs.Judgement.{verdict};
ghost use Rattle.fault.specs.Fault.{checked_of};
ghost use Rattle.judge.specs.Judging.{parts_of, refused_of, answer_of, found_of, sides_in, marked, path_found, Covered, paths_found, pair_found, pairs_found};

use env::Env;
use fault::{Fault, Reason};
use list::PairRecord;
use side::Side;
use table::State;

mod images;

use images::{Images, PairOf, PathOf};

// Stays: document 01 fixes the answer, and `sandulipaw_judge` hands out its numbers (`three_numbers_of`, in that function's clause).
// The answer: a number, which image (1, 2 or 3 for the correspondence) and a record; acceptance is 0 0 0.
#[derive(Clone, Copy)]
pub struct Answer {
    pub number: u32,
    pub image: u32,
    pub record: u32,
}

// What is found at a record where a rule of this reason is kept, or broken.
#[tactic(auto, unfolding(crate::specs::Judging::found_of))]
fn found(kept: bool, reason: Reason, at: u32) -> Result<(), Fault>
    ensures { result ≡ found_of kept reason at }
{
    if kept {
        return Ok(());
    }
    Err(Fault { reason, record: at })
}

// Rules 16 to 19 on the two sides of a path that leads to a pair.
fn judge_sides(
    list: &[u32],
    target: PairRecord,
    path: u32,
    first: &Side,
    second: &Side,
) -> Result<(), Fault>
    requires { target.link + target.links < 2 ^ 32 }
    ensures { result ≡ checked_of (sides_in list.now (word list.now 5) target.link target.links path first.now second.now) }
{
    found(
        second.conditions.assured_by(&first.conditions),
        Reason::NotAssured,
        path,
    )?;
    found(
        rules::same_reads(&first.reads, &second.reads),
        Reason::ReadsDiffer,
        path,
    )?;
    found(
        rules::same_writes(&first.writes, &second.writes),
        Reason::WritesDiffer,
        path,
    )?;
    found(
        rules::keeps_links(
            list,
            table::word_at(list, 5),
            target.link,
            target.links,
            &first.env,
            &second.env,
        ),
        Reason::LinkNotKept,
        path,
    )
}

// Whether choices can be walked from a state to a target.
fn leads(table: &[u32], state: u32, length: u32, choices: u32, target: u32) -> bool
    requires { word table.now 5 ≡ edges_at table.now }
    ensures { result ≡ (walkable (table_of table.now) state (choices_of length choices) && eqb (end_state (table_of table.now) state (choices_of length choices)) target) }
{
    cover::reach(table, state, length, choices) == Some(target)
}

// A path marked impossible: rules 13 and 15 on its first side, which is followed in the one lent.
fn judge_marked(path: &PathOf, side: &mut Side) -> Result<(), Fault>
    requires { marked path.now ≡ true }
    ensures { result ≡ path_found path.now }
{
    let images = path.pair.images;
    let pair = list::pair(images.list, path.pair.i);
    let record = list::path(images.list, table::word_at(images.list, 7), path.j);
    let followed = side.follow(
        images.first,
        pair.first,
        record.length,
        record.choices,
        images.own,
    );
    found(followed.is_ok(), Reason::OverSize, path.j)?;
    found(
        side.conditions.contradicts(),
        Reason::NoContradiction,
        path.j,
    )
}

// Stays: both sides are lent on as they are, by this function and three below; a struct of the two would be lent just so.
// A path that is not marked: rules 12 and 13, then 16 to 19 on its two sides, which are followed in those lent.
fn judge_unmarked(path: &PathOf, one: &mut Side, other: &mut Side) -> Result<(), Fault>
    requires { marked path.now ≡ false }
    ensures { result ≡ path_found path.now }
{
    let images = path.pair.images;
    let pair = list::pair(images.list, path.pair.i);
    let record = list::path(images.list, table::word_at(images.list, 7), path.j);
    let target = list::pair(images.list, record.target);
    let here = leads(
        images.first,
        pair.first,
        record.length,
        record.choices,
        target.first,
    );
    found(here, Reason::DoesNotFollow, path.j)?;
    let there = leads(
        images.second,
        pair.second,
        record.second_length,
        record.second_choices,
        target.second,
    );
    found(there, Reason::DoesNotFollow, path.j)?;
    let first_followed = one.follow(
        images.first,
        pair.first,
        record.length,
        record.choices,
        images.own,
    );
    found(first_followed.is_ok(), Reason::OverSize, path.j)?;
    let linked = path.linked;
    let second_followed = other.follow(
        images.second,
        pair.second,
        record.second_length,
        record.second_choices,
        linked,
    );
    found(second_followed.is_ok(), Reason::OverSize, path.j)?;
    judge_sides(images.list, target, path.j, one, other)
}

// A path, by its mark.
fn judge_path(path: &PathOf, one: &mut Side, other: &mut Side) -> Result<(), Fault>
    ensures { result ≡ path_found path.now }
{
    let list = path.pair.images.list;
    let record = list::path(list, table::word_at(list, 7), path.j);
    // Stays: the mark as it stands in the record, which the check of the list found to be 0 or 1.
    if record.mark == 1 {
        return judge_marked(path, one);
    }
    judge_unmarked(path, one, other)
}

// The paths of a pair in order, where rule 11 holds of it.
fn judge_paths(pair: &PairOf, one: &mut Side, other: &mut Side) -> Result<(), Fault>
    requires { Covered pair.now }
    ensures { result ≡ paths_found pair.now }
{
    let list = pair.images.list;
    let record = list::pair(list, pair.i);
    let symbols = list::partners(list, table::word_at(list, 5), record.link, record.links);
    let linked = Env::symbols(&symbols);
    let begin = record.path;
    let n = record.paths;
    for k in 0..n {
        let path = PathOf {
            pair: *pair,
            linked: &linked,
            j: begin + k,
        };
        judge_path(&path, one, other)?;
    }
    Ok(())
}

// Whether a state of a table is a stop.
fn stops(table: &[u32], state: u32) -> bool
    ensures { result ≡ is_stop (table_of table.now state) }
{
    matches!(State::from(table::state(table, state)), State::Stop)
}

// A pair: rules 10 and 11, then its paths in order.
fn judge_pair(pair: &PairOf, one: &mut Side, other: &mut Side) -> Result<(), Fault>
    ensures { result ≡ pair_found pair.now }
{
    let images = pair.images;
    let record = list::pair(images.list, pair.i);
    let alike = stops(images.first, record.first) == stops(images.second, record.second);
    found(alike, Reason::StopsDiffer, pair.i)?;
    let covered = cover::covers(
        images.first,
        images.list,
        record.first,
        record.path,
        record.paths,
    );
    found(covered, Reason::NotCovered, pair.i)?;
    judge_paths(pair, one, other)
}

// All pairs in order. The sides in which a path is followed are made here, once, and lent to each path in turn.
fn judge_pairs(images: &Images) -> Result<(), Fault>
    ensures { result ≡ pairs_found images.now }
{
    let mut one = Side::new();
    let mut other = Side::new();
    let n = table::word_at(images.list, 2);
    for i in 0..n {
        let pair = PairOf { images: *images, i };
        judge_pair(&pair, &mut one, &mut other)?;
    }
    Ok(())
}

// An answer from its parts.
#[tactic(auto, unfolding(crate::specs::Judging::parts_of))]
fn said(number: u32, image: u32, at: u32) -> Answer
    ensures { result ≡ parts_of number image at }
{
    Answer {
        number,
        image,
        record: at,
    }
}

// The answer where a fault is found in an image.
#[tactic(auto, unfolding(crate::specs::Judging::refused_of))]
fn refused(fault: Fault, image: u32) -> Answer
    ensures { result ≡ refused_of fault image }
{
    said(u32::from(fault.reason), image, fault.record)
}

// The verdict on two tables and a correspondence: the first broken rule with its image and record, or 0 0 0.
pub fn judge(first: &[u32], second: &[u32], list: &[u32]) -> Answer
    ensures { result ≡ answer_of (verdict first.now second.now list.now) }
{
    if let Err(fault) = table::check(first) {
        return refused(fault, 1);
    }
    if let Err(fault) = table::check(second) {
        return refused(fault, 2);
    }
    if let Err(fault) = list::check(table::word_at(first, 2), table::word_at(second, 2), list) {
        return refused(fault, 3);
    }
    let own = Env::symbols(&list::own_symbols());
    let images = Images {
        first,
        second,
        list,
        own: &own,
    };
    match judge_pairs(&images) {
        Err(fault) => refused(fault, 3),
        Ok(()) => said(0, 0, 0),
    }
}
