// The library's functions for programs in other languages, as a static library: `rt lib` here writes out/libexports_c.a. Each calls the
// function of crate `exports` that has its name, and promises the same. A slice is a pointer and a length. Assumes nothing.
#![tactic(auto)]

ghost use Rattle.std.specs.Prelude.{◌≡◌};
ghost use Rattle.model.specs.Word.{base};
ghost use Rattle.model.specs.Run.{zeros, trial, trial_buffer};
ghost use Rattle.model.specs.Judgement.{verdict};
ghost use Rattle.run.specs.Answers.{answer_of};
ghost use Rattle.judge.specs.Judging as Judging;
ghost use Rattle.exports.specs.Numbers.{numbers_of, three_numbers_of};

// Stays: the C interface; these are the two symbols that are handed out.
// Runs a table on input couples, and puts the 22 numbers of the answer into a buffer of 64-bit numbers.
#[unsafe(no_mangle)]
pub extern "C" fn sandulipaw_run(
    table: &[u32],
    input: &[u32],
    limit: u32,
    out: &mut [u32],
    answer: &mut [u64; 22],
)
    ensures out_after { out.new ≡ trial_buffer base zeros table.now input.now limit out.old }
    ensures answer_after { answer.new ≡ numbers_of (answer_of (trial base zeros table.now input.now limit out.old)) }
{
    exports::sandulipaw_run(table, input, limit, out, answer);
}

// Judges a correspondence between two tables, and puts the three numbers of the answer into a buffer of 64-bit numbers.
#[unsafe(no_mangle)]
pub extern "C" fn sandulipaw_judge(
    first: &[u32],
    second: &[u32],
    list: &[u32],
    answer: &mut [u64; 3],
)
    ensures { answer.new ≡ three_numbers_of (Judging.answer_of (verdict first.now second.now list.now)) }
{
    exports::sandulipaw_judge(first, second, list, answer);
}
