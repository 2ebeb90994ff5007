// `run_table TABLE INPUT [LIMIT [ROOM]]` runs a table on given words. It prints a line `port value` for each couple that the run wrote,
// with the signed number of the word, and then `end number state edges`; a refused run prints `number image record` alone. What it was
// called with wrongly, or cannot read, it says in one line on standard error, and prints nothing. The limit is 10,000 edges and the room
// 4,096 words unless numbers are given. What the lines hold is proved; that they are printed rests on std.
#![tactic(auto)]

ghost use Rattle.std.specs.Prelude.{◌≡◌, ◌+◌, ◌*◌, ◌≤◌, length};
ghost use Rattle.files.specs.Files.{placed};
ghost use Rattle.files.specs.Lines.{Front, three_of, couple_lines};
ghost use Rattle.run_table.specs.Text.{end_text, text_of, run_text};

use run::Trial;
use shell::Said;
use std::rt::Env;

// The limit on edges where none is given.
const LIMIT: u32 = 10000;

// The most words of room, and the room where none is given.
const ROOM: u32 = 4096;

// The number that an argument writes, if it writes one, or another where there is no such argument.
fn setting(rt: &impl Env, i: usize, count: usize, otherwise: u32) -> Option<u32> {
    if count <= i {
        return Some(otherwise);
    }
    let mut text = shell::zeros();
    let n = shell::take_argument(rt, i, &mut text)?;
    files::number(&text[..n])
}

// Forms the lines of couples in front of a text, and gives how many bytes that took: at most 23 for each.
fn couple_lines(words: &[u32], text: &mut [u8]) -> usize
    requires { 12 * length words.now ≤ length text.old }
    ensures value { result ≡ length (couple_lines words.now) }
    ensures text_after { text.new ≡ placed 0 (couple_lines words.now) text.old }
    ensures upper_bound { result ≤ 12 * length words.now }
{
    let (couples, _) = words.as_chunks::<2>();
    let mut at = 0;
    for couple in couples {
        at = files::couple_line(couple[0], couple[1], at, text);
    }
    at
}

// Forms what a run that ended prints, its couples and its end, and gives how many bytes that took.
fn end_text(number: u32, state: u32, edges: u32, words: &[u32], text: &mut [u8]) -> usize
    requires { 12 * length words.now + 37 ≤ length text.old }
    ensures value { result ≡ length (end_text number state edges words.now) }
    ensures text_after { text.new ≡ placed 0 (end_text number state edges words.now) text.old }
    ensures front { Front result text.new }
{
    let at = couple_lines(words, text);
    files::end_line(number, state, edges, at, text)
}

// Forms what a refused run prints, and gives how many bytes that took.
fn refusal_text(number: u32, image: u32, record: u32, text: &mut [u8]) -> usize
    requires { 37 ≤ length text.old }
    ensures value { result ≡ length (three_of number image «record») }
    ensures text_after { text.new ≡ placed 0 (three_of number image «record») text.old }
    ensures front { Front result text.new }
{
    files::answer_line(number, image, record, 0, text)
}

// Forms what a run prints by its answer and the words of its couples: 20 to 23 are the ends, any other number is a refusal.
#[tactic(auto, unfolding(crate::specs::Text::text_of))]
fn report(trial: Trial, words: &[u32], text: &mut [u8]) -> usize
    requires { 12 * length words.now + 37 ≤ length text.old }
    ensures value { result ≡ length (text_of trial words.now) }
    ensures text_after { text.new ≡ placed 0 (text_of trial words.now) text.old }
    ensures front { Front result text.new }
{
    // Stays: the answer is the paper's numbers.
    if (20..=23).contains(&trial.number) {
        end_text(trial.number, trial.state, trial.edges, words, text)
    } else {
        refusal_text(trial.number, trial.image, trial.record, text)
    }
}

// Runs a table on words in a room, forms what is printed in front of a text, and gives how many bytes that took.
#[tactic(auto, unfolding(crate::specs::Text::run_text, crate::specs::Text::room_of))]
fn run_text(table: &[u32], input: &[u32], limit: u32, words: &mut [u32], text: &mut [u8]) -> usize
    requires { 12 * length words.old + 37 ≤ length text.old }
    ensures value { result ≡ length (run_text table.now input.now limit words.old) }
    ensures text_after { text.new ≡ placed 0 (run_text table.now input.now limit words.old) text.old }
    ensures front { Front result text.new }
{
    let trial = run::run(table, input, limit, words);
    let n = trial.couples.saturating_mul(2).min(words.len());
    report(trial, &words[..n], text)
}

// Runs a table on words in a room of at most as many words as a run is ever lent, and prints what the run says.
fn run_words(
    rt: &HostRuntime,
    table: &[u32],
    input: &[u32],
    limit: u32,
    room: usize,
) -> Result<(), Said>
    requires { room ≤ 4096 }
{
    let mut words = [0u32; 4096];
    let mut text = shell::zeros::<65536>();
    let n = run_text(table, input, limit, &mut words[..room], &mut text);
    shell::print(rt, &text[..n])
}

// Reads the two files and runs the table of the first on the words of the second.
fn run_files(rt: &HostRuntime, limit: u32, room: usize) -> Result<(), Said>
    requires { room ≤ 4096 }
{
    let mut bytes = shell::zeros::<65536>();
    let mut table = [0u32; 4298];
    let mut input = [0u32; 8192];
    let n = shell::read_argument(rt, 1, &mut bytes)?;
    let t = files::image(&bytes[..n], &mut table);
    let m = shell::read_argument(rt, 2, &mut bytes)?;
    let i = files::input(&bytes[..m], &mut input);
    run_words(rt, &table[..t], &input[..i], limit, room)
}

fn main(rt: HostRuntime) {
    let count = shell::argument_count(&rt);
    if count < 3 {
        shell::say(
            &rt,
            b"too few arguments: run_table TABLE INPUT [LIMIT [ROOM]]\n",
        );
        return;
    }
    if 5 < count {
        shell::say(
            &rt,
            b"too many arguments: run_table TABLE INPUT [LIMIT [ROOM]]\n",
        );
        return;
    }
    let Some(limit) = setting(&rt, 3, count, LIMIT) else {
        shell::say(&rt, b"LIMIT must be a number of edges, 0 to 4294967295\n");
        return;
    };
    let Some(room) = setting(&rt, 4, count, ROOM).filter(|room| *room <= ROOM) else {
        shell::say(&rt, b"ROOM must be a number of words, 0 to 4096\n");
        return;
    };
    let _ = run_files(&rt, limit, room as usize);
}
