// `check_tables FIRST SECOND LIST` judges whether the second table does what the first does, by a correspondence, and prints the verdict in
// a line `number image record`. More such triples may follow, and each gives its line in turn. What it was called with wrongly, or cannot
// read or write, it says in one line on standard error; nothing is printed for that triple, nor for those behind it. What a line holds is
// proved; that it is printed rests on std.
#![tactic(auto)]

ghost use Rattle.std.specs.Prelude.{◌≡◌, ◌+◌, ◌<◌, ◌≤◌, ◌^◌, IfOk, length};
ghost use Rattle.files.specs.Files.{placed};
ghost use Rattle.files.specs.Lines.{Front};
ghost use Rattle.check_tables.specs.Text.{verdict_text};

use shell::Said;

// Judges three images, forms the line of the verdict in front of a text, and gives how many bytes that took.
fn verdict_text(first: &[u32], second: &[u32], list: &[u32], text: &mut [u8]) -> usize
    requires { 33 ≤ length text.old }
    ensures value { result ≡ length (verdict_text first.now second.now list.now) }
    ensures text_after { text.new ≡ placed 0 (verdict_text first.now second.now list.now) text.old }
    ensures front { Front result text.new }
{
    let answer = judge::judge(first, second, list);
    files::answer_line(answer.number, answer.image, answer.record, 0, text)
}

// Judges three images and prints the verdict.
fn judge_words(rt: &HostRuntime, first: &[u32], second: &[u32], list: &[u32]) -> Result<(), Said> {
    let mut text = shell::zeros::<4096>();
    let n = verdict_text(first, second, list, &mut text);
    shell::print(rt, &text[..n])
}

// Reads the file that an argument names by a buffer for its bytes, takes its words into the front of a buffer, and gives how many are lent.
fn read_image(
    rt: &HostRuntime,
    i: usize,
    bytes: &mut [u8],
    words: &mut [u32],
) -> Result<usize, Said>
    ensures { IfOk result (λ n. n ≤ length words.new) }
{
    let n = shell::read_argument(rt, i, bytes)?;
    Ok(files::image(&bytes[..n], words))
}

// Reads the three files that stand from an argument on, judges them and prints the verdict.
fn judge_files(rt: &HostRuntime, i: usize) -> Result<(), Said>
    requires { i + 2 < 2 ^ 64 }
{
    let mut bytes = shell::zeros::<65536>();
    let mut first = [0u32; 4298];
    let mut second = [0u32; 4298];
    let mut list = [0u32; 5512];
    let a = read_image(rt, i, &mut bytes, &mut first)?;
    let b = read_image(rt, i + 1, &mut bytes, &mut second)?;
    let c = read_image(rt, i + 2, &mut bytes, &mut list)?;
    judge_words(rt, &first[..a], &second[..b], &list[..c])
}

fn main(rt: HostRuntime) {
    let count = shell::argument_count(&rt);
    if count < 4 {
        shell::say(
            &rt,
            b"too few arguments: check_tables FIRST SECOND LIST [FIRST SECOND LIST ..]\n",
        );
        return;
    }
    if count % 3 != 1 {
        shell::say(
            &rt,
            b"the arguments are no triples: check_tables FIRST SECOND LIST [FIRST SECOND LIST ..]\n",
        );
        return;
    }
    let _ = (1..count).step_by(3).try_for_each(|i| judge_files(&rt, i));
}
