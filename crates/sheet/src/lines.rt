//! The lines of a sheet, each in fixed memory that has room for the longest of its kind.
ghost use Rattle.std.specs.Prelude.{◌≡◌, ◌+◌, ◌≤◌, ◌++◌, codes, length};
ghost use Rattle.methodology.specs.Names.{name};
ghost use Rattle.arrayvec.specs.ArrayString.{array_string_len};
ghost use Rattle.sheet.specs.Limits.{name_limit};
ghost use Rattle.sheet.specs.Text.{line_feed, month_line, head_line, licensee_line, margin_line};

use accounts::{Billed, HeadLine};
use arrayvec::ArrayString;
use itoa::{Buffer, Integer};
use methodology::Head;

/// Most digits of a number of 64 bits.
const DIGITS: usize = 20;

/// Most bytes of a number behind a blank.
const FIGURE: usize = 1 + DIGITS;

/// Most bytes of one that may have a sign.
const SIGNED_FIGURE: usize = 1 + FIGURE;

/// Most bytes of the month's line: the word that it begins with, its figure, the line feed.
pub const MONTH_LINE: usize = 5 + FIGURE + 1;

/// Most bytes of a head's line: its name, four figures of which the balance may have a sign, the line feed.
pub const HEAD_LINE: usize = 1 + DIGITS + 3 * FIGURE + SIGNED_FIGURE + 1;

/// Most bytes of a licensee's line: the word, its number, bill and fraction, the line feed.
pub const LICENSEE_LINE: usize = 8 + 3 * FIGURE + 1;

/// Most bytes of the margin's line: the word, a figure that may have a sign, the line feed.
pub const MARGIN_LINE: usize = 6 + SIGNED_FIGURE + 1;

/// Writes a number behind a blank.
fn push_figure<const CAP: usize, I: Integer>(line: &mut ArrayString<CAP>, n: I)
    requires { array_string_len line.old + 1 + I.MAX_STR_LEN ≤ CAP }
    ensures text { line.new.bytes ≡ line.old.bytes ++ (codes " " ++ I.text n) }
    ensures len { array_string_len line.new ≤ array_string_len line.old + 1 + I.MAX_STR_LEN }
{
    let mut digits = Buffer::new();
    line.push_str(" ");
    line.push_str(digits.format(n));
}

/// The line of one figure behind the word that it begins with.
fn line_of<const CAP: usize, I: Integer>(word: &str, figure: I) -> ArrayString<CAP>
    requires { length word.now + 1 + I.MAX_STR_LEN + 1 ≤ CAP }
    ensures { result.bytes ≡ word.now ++ ((codes " " ++ I.text figure) ++ line_feed) }
{
    let mut line = ArrayString::new();
    line.push_str(word);
    push_figure(&mut line, figure);
    line.push_str("\n");
    line
}

/// The line of the month.
#[tactic(auto, unfolding(crate::specs::Text::month_line))]
pub fn month_line(month: u8) -> ArrayString<MONTH_LINE>
    ensures { result.bytes ≡ month_line month }
{
    line_of("month", month)
}

/// Writes the name of a head.
fn push_name(line: &mut ArrayString<HEAD_LINE>, head: Head)
    requires { line.old.bytes ≡ codes "" }
    ensures text { line.new.bytes ≡ name head }
    ensures len { array_string_len line.new ≤ name_limit }
{
    line.push_str(head.letter());
    if let Some(numeral) = head.numeral() {
        let mut digits = Buffer::new();
        line.push_str(digits.format(numeral));
    }
}

/// The line of a head.
#[tactic(auto, unfolding(crate::specs::Text::head_line))]
pub fn head_line(head: Head, line: &HeadLine) -> ArrayString<HEAD_LINE>
    ensures { result.bytes ≡ head_line head line.now }
{
    let mut text = ArrayString::new();
    push_name(&mut text, head);
    push_figure(&mut text, line.actual);
    push_figure(&mut text, line.published);
    push_figure(&mut text, line.balance);
    push_figure(&mut text, line.carry);
    text.push_str("\n");
    text
}

/// The line of a licensee, or nothing where it has none.
#[tactic(auto, unfolding(crate::specs::Text::licensee_line))]
pub fn licensee_line(number: usize, billed: &Option<Billed>) -> ArrayString<LICENSEE_LINE>
    ensures { result.bytes ≡ licensee_line number billed.now }
{
    let mut line = ArrayString::new();
    if let Some(billed) = billed {
        line.push_str("licensee");
        push_figure(&mut line, number);
        push_figure(&mut line, billed.bill);
        push_figure(&mut line, billed.fraction);
        line.push_str("\n");
    }
    line
}

/// The line of the margin.
#[tactic(auto, unfolding(crate::specs::Text::margin_line))]
pub fn margin_line(margin: i64) -> ArrayString<MARGIN_LINE>
    ensures { result.bytes ≡ margin_line margin }
{
    line_of("margin", margin)
}
