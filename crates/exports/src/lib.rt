// The library's functions for programs in other languages, which crate `exports_c` hands out under the same names. A slice is a pointer and a
// length. Assumes nothing.
#![tactic(auto)]

ghost use Rattle.std.specs.Prelude.{◌≡◌};
ghost use Rattle.model.specs.Word.{base};
ghost use Rattle.model.specs.Run.{zeros, trial, trial_buffer};
ghost use Rattle.model.specs.Judgement.{verdict};
ghost use Rattle.run.specs.Answers.{answer_of};
ghost use Rattle.judge.specs.Judging as Judging;
ghost use Rattle.exports.specs.Numbers.{numbers_of, three_numbers_of};

// Runs a table on input couples, as `run::run` does, and puts the 22 numbers of the answer into a buffer of 64-bit numbers, so that none is
// cut.
pub fn sandulipaw_run(
    table: &[u32],
    input: &[u32],
    limit: u32,
    out: &mut [u32],
    answer: &mut [u64; 22],
)
    ensures out_after { out.new ≡ trial_buffer base zeros table.now input.now limit out.old }
    ensures answer_after { answer.new ≡ numbers_of (answer_of (trial base zeros table.now input.now limit out.old)) }
{
    let t = run::run(table, input, limit, out);
    answer[..6].copy_from_slice(&[
        u64::from(t.number),
        u64::from(t.image),
        u64::from(t.record),
        u64::from(t.state),
        u64::from(t.edges),
        t.couples as u64,
    ]);
    answer[6..].copy_from_slice(&t.variables.map(|x| u64::from(x)));
}

// Judges a correspondence between two tables, as `judge::judge` does, and puts the three numbers of the answer into a buffer of 64-bit
// numbers.
#[tactic(auto, unfolding(crate::specs::Numbers::three_numbers_of))]
pub fn sandulipaw_judge(first: &[u32], second: &[u32], list: &[u32], answer: &mut [u64; 3])
    ensures { answer.new ≡ three_numbers_of (Judging.answer_of (verdict first.now second.now list.now)) }
{
    let a = judge::judge(first, second, list);
    *answer = [u64::from(a.number), u64::from(a.image), u64::from(a.record)];
}
