//! The text of a sheet, in fixed memory that has room for the longest.
ghost use Rattle.std.specs.Prelude.{◌≡◌, ◌+◌, ◌≤◌, ◌++◌, length, IfOk};
ghost use Rattle.arrayvec.specs.ArrayString.{array_string_len};
ghost use Rattle.sheet.specs.Limits.{text_limit, month_limit, heads_limit, licensees_limit};
ghost use Rattle.sheet.specs.Text.{heads_text, licensees_text, sheet_text};
ghost use Rattle.sheet.specs.Calls.{Writes};

use crate::lines::{
    HEAD_LINE, LICENSEE_LINE, MARGIN_LINE, MONTH_LINE, head_line, licensee_line, margin_line,
    month_line,
};
use accounts::Sheet;
use arrayvec::ArrayString;
use metering::{LICENSEE_COUNT, ShortBuffer};
use rates::HEADS;

/// Most bytes of a sheet's text.
pub const TEXT_LIMIT: usize = MONTH_LINE
    + HEADS * HEAD_LINE
    + LICENSEE_COUNT * LICENSEE_LINE
    + MARGIN_LINE;

/// Writes the lines of the heads.
fn push_heads(text: &mut ArrayString<TEXT_LIMIT>, sheet: &Sheet)
    requires { array_string_len text.old ≤ month_limit }
    ensures text { text.new.bytes ≡ text.old.bytes ++ heads_text sheet.now }
    ensures len { array_string_len text.new ≤ array_string_len text.old + heads_limit }
{
    for (k, line) in sheet.heads[..sheet.shape.heads()].iter().enumerate() {
        text.push_str(head_line(sheet.shape.head(k + 1), line).as_str());
    }
}

/// Writes the lines of the licensees that have one.
fn push_licensees(text: &mut ArrayString<TEXT_LIMIT>, sheet: &Sheet)
    requires { array_string_len text.old ≤ month_limit + heads_limit }
    ensures text { text.new.bytes ≡ text.old.bytes ++ licensees_text sheet.now }
    ensures len { array_string_len text.new ≤ array_string_len text.old + licensees_limit }
{
    for (k, billed) in sheet.licensees.iter().enumerate() {
        text.push_str(licensee_line(k + 1, billed).as_str());
    }
}

/// The text of a sheet.
#[tactic(auto, unfolding(crate::specs::Text::sheet_text))]
pub fn text_of(sheet: &Sheet) -> ArrayString<TEXT_LIMIT>
    ensures text { result.bytes ≡ sheet_text sheet.now }
    ensures longest { length (sheet_text sheet.now) ≤ text_limit }
{
    let mut text = ArrayString::new();
    text.push_str(month_line(sheet.month).as_str());
    push_heads(&mut text, sheet);
    push_licensees(&mut text, sheet);
    text.push_str(margin_line(sheet.margin).as_str());
    text
}

/// Writes a sheet's text to the start of the buffer and answers its length. Refused with 5 where the buffer is too short, which
/// is left as it was; one of `TEXT_LIMIT` bytes is always long enough.
pub fn write_sheet(sheet: &Sheet, buffer: &mut [u8]) -> Result<usize, ShortBuffer>
    ensures value { Writes (sheet_text sheet.now) buffer.old result buffer.new }
    ensures fits { IfOk result (λ n. n ≤ length buffer.old) }
    ensures longest { length (sheet_text sheet.now) ≤ text_limit }
{
    let text = text_of(sheet);
    let size = text.len();
    if buffer.len() < size {
        return Err(ShortBuffer);
    }
    buffer[..size].copy_from_slice(text.as_str().as_bytes());
    Ok(size)
}
