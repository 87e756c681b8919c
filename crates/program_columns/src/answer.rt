// The lines of answers.
ghost use Rattle.std.specs.Prelude.{◌≡◌, ◌+◌, ◌%◌, [], OnOk, length, replicate};
ghost use Rattle.std.specs.Io.KnownBytes.{Appends};
ghost use Rattle.program_columns.specs.Answer.{columns_before, in_columns, answer_columns, answer_line, pair_line, other_form_line};

use std::io;
use std::io::Write;

// A digit, the lowest of n.
fn digit(n: u64) -> u8
    ensures { result ≡ 48 + n % 10 }
{
    b'0' + (n % 10) as u8
}

// A number over all columns, which are blank, right-justified: its last digit, and the rest of it before that.
#[tactic(auto, using(crate::proofs::Lines::blanks_front, crate::proofs::Lines::all_columns, crate::proofs::Lines::last_digit, crate::proofs::Lines::no_columns))]
fn fill_columns(columns: &mut [u8], n: u64)
    requires { columns.old ≡ replicate (length columns.old) 32 }
    ensures { columns.new ≡ in_columns (length columns.old) n }
{
    if let Some((last, before)) = columns.split_last_mut() {
        *last = digit(n);
        if 10 <= n {
            fill_columns(before, n / 10);
        }
    }
}

#[tactic(auto, unfolding(crate::specs::Answer::columns_before, crate::specs::Answer::in_columns, crate::specs::Answer::pair_line))]
pub fn pair_line(page: u64, frame: u64) -> [u8; 26]
    ensures { result ≡ pair_line page frame }
{
    let mut line = [b' '; 26];
    line[0] = b'-';
    fill_columns(&mut line[1..13], page);
    fill_columns(&mut line[13..25], frame);
    line[25] = b'\n';
    line
}

// An answer's 12 columns stay blank where nothing was found, or the call was refused.
#[tactic(auto, unfolding(crate::specs::Answer::columns_before, crate::specs::Answer::in_columns, crate::specs::Answer::answer_columns, crate::specs::Answer::answer_line))]
pub fn answer_line(letter: u8, refusal: u32, answer: Option<u64>) -> [u8; 17]
    ensures { result ≡ answer_line letter refusal answer }
{
    let mut line = [b' '; 17];
    line[0] = letter;
    fill_columns(&mut line[1..4], u64::from(refusal));
    if let Some(n) = answer {
        fill_columns(&mut line[4..16], n);
    }
    line[16] = b'\n';
    line
}

pub fn other_form_line() -> [u8; 2]
    ensures { result ≡ other_form_line }
{
    *b"?\n"
}

pub fn write_answer<W: Write>(
    out: &mut W,
    letter: u8,
    refusal: u32,
    answer: Option<u64>,
) -> io::Result<()>
    ensures { OnOk result (Appends (W.contents out.old) (W.contents out.new) (answer_line letter refusal answer)) }
{
    out.write_all(&answer_line(letter, refusal, answer))
}

pub fn write_pair<W: Write>(out: &mut W, page: u64, frame: u64) -> io::Result<()>
    ensures { OnOk result (Appends (W.contents out.old) (W.contents out.new) (pair_line page frame)) }
{
    out.write_all(&pair_line(page, frame))
}

pub fn write_other_form<W: Write>(out: &mut W) -> io::Result<()>
    ensures { OnOk result (Appends (W.contents out.old) (W.contents out.new) other_form_line) }
{
    out.write_all(&other_form_line())
}
