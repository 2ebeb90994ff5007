// What both programs read and print: the words of a file's bytes, low byte first, a decimal number in an argument, and the lines of
// couples, ends and answers. Every public function takes any arguments. Assumes nothing.
#![tactic(auto)]

ghost use Rattle.std.specs.Prelude.{◌≡◌, ◌+◌, ◌≤◌, ◌++◌, length};
ghost use Rattle.arrayvec.specs.ArrayString.{array_string_len};
ghost use Rattle.files.specs.Files.{taken_of, filled_of, lent_of, number_of};
ghost use Rattle.files.specs.Lines.{Front, three_of, couple_line, end_line, behind, appended};

use arrayvec::ArrayString;
use itoa::{Buffer, Integer};

// Why no words are taken: the bytes are no whole words, or they are more words than the buffer has.
#[derive(Clone, Copy, PartialEq, Eq)]
pub enum Unfit {
    Ragged,
    TooLong,
}

// Takes the words of the bytes into the front of a buffer, four bytes each, and gives how many there are. The buffer stays as it was where
// the bytes are no whole words, or more words than the buffer has.
#[tactic(auto, unfolding(crate::specs::Files::taken_of, crate::specs::Files::filled_of, crate::specs::Files::by_fit))]
pub fn words(bytes: &[u8], out: &mut [u32]) -> Result<usize, Unfit>
    ensures value { result ≡ taken_of bytes.now (length out.old) }
    ensures out_after { out.new ≡ filled_of bytes.now out.old }
{
    let (fours, rest) = bytes.as_chunks::<4>();
    let n = fours.len();
    if rest.len() != 0 {
        return Err(Unfit::Ragged);
    }
    if out.len() < n {
        return Err(Unfit::TooLong);
    }
    for i in 0..n {
        out[i] = u32::from_le_bytes(fours[i]);
    }
    Ok(n)
}

// The word that a text writes in decimal. std reads a sign before the digits, which no number has here.
pub fn number(text: &[u8]) -> Option<u32>
    ensures { result ≡ number_of text.now }
{
    if text.first().copied() == Some(b'+') {
        return None;
    }
    let digits = str::from_utf8(text).ok()?;
    digits.parse().ok()
}

// Stays: the buffer is the caller's, and what becomes of all of it is promised (`appended`).
// Stores a text in a buffer from a place on, and gives the place behind it; a text that does not fit is not stored, and the place stays.
#[tactic(auto, unfolding(crate::specs::Lines::behind, crate::specs::Lines::appended, crate::specs::Lines::fits))]
pub fn append(text: &[u8], at: usize, out: &mut [u8]) -> usize
    ensures value { result ≡ behind at text.now out.old }
    ensures out_after { out.new ≡ appended at text.now out.old }
{
    if out.len() < at || out.len() - at < text.len() {
        return at;
    }
    let end = at + text.len();
    out[at..end].copy_from_slice(text);
    end
}

// A line as it is formed: the longest is the end of a run.
type Line = ArrayString<37>;

// Adds a number in decimal, and a text behind it, to a line.
fn push<I: Integer>(n: I, behind: &str, line: &mut Line)
    requires { array_string_len line.old + length (I.text n) + length behind.now ≤ 37 }
    ensures { line.new.bytes ≡ line.old.bytes ++ I.text n ++ behind.now }
{
    line.push_str(Buffer::new().format(n));
    line.push_str(behind);
}

// Adds three numbers with a space between them and a line's end behind them to a line.
fn push_three(a: u32, b: u32, c: u32, line: &mut Line)
    requires { array_string_len line.old ≤ 4 }
    ensures { line.new.bytes ≡ line.old.bytes ++ three_of a b c }
{
    push(a, " ", line);
    push(b, " ", line);
    push(c, "\n", line);
}

// Appends the line of a couple, a port and the signed number of its word, to a text at a place, and gives the place behind it; a line that
// does not fit is not stored, and the place stays.
pub fn couple_line(port: u32, x: u32, at: usize, text: &mut [u8]) -> usize
    ensures value { result ≡ behind at (couple_line port x) text.old }
    ensures text_after { text.new ≡ appended at (couple_line port x) text.old }
{
    let mut line = Line::new();
    push(port, " ", &mut line);
    push(word::signed(x), "\n", &mut line);
    append(line.as_str().as_bytes(), at, text)
}

// Appends the line of an answer, its number, image and record, in the same way.
pub fn answer_line(number: u32, image: u32, record: u32, at: usize, text: &mut [u8]) -> usize
    ensures value { result ≡ behind at (three_of number image «record») text.old }
    ensures text_after { text.new ≡ appended at (three_of number image «record») text.old }
{
    let mut line = Line::new();
    push_three(number, image, record, &mut line);
    append(line.as_str().as_bytes(), at, text)
}

// Appends the line of a run's end, `end`, its number, state and edges, in the same way.
pub fn end_line(number: u32, state: u32, edges: u32, at: usize, text: &mut [u8]) -> usize
    ensures value { result ≡ behind at (end_line number state edges) text.old }
    ensures text_after { text.new ≡ appended at (end_line number state edges) text.old }
{
    let mut line = Line::new();
    line.push_str("end ");
    push_three(number, state, edges, &mut line);
    append(line.as_str().as_bytes(), at, text)
}

// Takes the words of a table's or a correspondence's file into the front of a buffer that holds the longest legal one, and gives how many
// words are lent: none for a file that is no whole words or too long, so that the image is refused at its turn.
pub fn image(bytes: &[u8], out: &mut [u32]) -> usize
    ensures value { result ≡ lent_of 0 (taken_of bytes.now (length out.old)) }
    ensures out_after { out.new ≡ filled_of bytes.now out.old }
    ensures front { Front result out.new }
{
    words(bytes, out).unwrap_or(0)
}

// Stays: it differs from `image` in what is lent for a wrong file and in the buffer's type, and is one call.
// Takes the words of a run's input file into the front of a buffer, and gives how many words are lent: one for a file that is no whole
// words or has more than 8,192, so that the run is refused by 24 at the input's turn.
pub fn input(bytes: &[u8], out: &mut [u32; 8192]) -> usize
    ensures value { result ≡ lent_of 1 (taken_of bytes.now (length out.old)) }
    ensures out_after { out.new ≡ filled_of bytes.now out.old }
    ensures front { Front result out.new }
{
    words(bytes, out).unwrap_or(1)
}
