//! Sums over the answers and the sheets of two years, in grains unless another unit is named.
ghost use Rattle.std.specs.Prelude.{◌<◌};

use accounts::Sheet;
use arith::CENT;
use history::Answer;
use std::alloc::{AllocError, Global};

/// The sheets of all closed months.
pub fn sheets_of(heap: Global, answers: &[Answer]) -> Result<Vec<Sheet>, AllocError> {
    let mut sheets = Vec::new(heap);
    for sheet in answers.iter().filter_map(Answer::sheet) {
        sheets.push(*sheet)?;
    }
    Ok(sheets)
}

/// How many kW the licensee takes each month.
const DEMAND: i128 = 90;

/// What the months spread under a revenue, grains: each month's rate over the demand, and what it carries on less what the
/// month before carried on.
pub fn spread(sheets: &[Sheet], head: usize, before: u64) -> i128
    requires { head < 6 }
{
    let mut sum: i128 = 0;
    let mut carried = before;
    for sheet in sheets {
        let line = sheet.heads[head];
        let rated = DEMAND.wrapping_mul(i128::from(line.actual));
        sum = sum.wrapping_add(rated);
        sum = sum.wrapping_add(i128::from(line.carry) - i128::from(carried));
        carried = line.carry;
    }
    sum
}

/// A licensee's bill, grains.
fn billed(sheet: &Sheet) -> i128 {
    sheet
        .licensees
        .iter()
        .flatten()
        .map(|billed| i128::from(CENT) * i128::from(billed.bill))
        .fold(0, |sum, bill| sum.wrapping_add(bill))
}

/// The account over all sheets, grains: the bills and the margins of each.
pub fn accounted(sheets: &[Sheet]) -> i128 {
    sheets
        .iter()
        .map(|sheet| billed(sheet).wrapping_add(i128::from(sheet.margin)))
        .fold(0, |sum, more| sum.wrapping_add(more))
}

/// What stands on the last sheet, grains: the fractions of the licensees, the balances and the carries of the heads.
pub fn standing(last: &Sheet) -> i128 {
    let fractions = last
        .licensees
        .iter()
        .flatten()
        .map(|billed| i128::from(billed.fraction));
    let heads = last
        .heads
        .iter()
        .map(|line| i128::from(line.balance) + i128::from(line.carry));
    fractions
        .chain(heads)
        .fold(0, |sum, more| sum.wrapping_add(more))
}

/// The sum of what each answer counts for.
fn total<F: Fn(&Answer) -> u64>(answers: &[Answer], counted: F) -> i128
    requires { (f : _) (a : _) → F.FnMut.pre f a }
{
    answers
        .iter()
        .map(counted)
        .fold(0, |sum, more| sum.wrapping_add(i128::from(more)))
}

/// The dues of all readings, grains.
pub fn dues(answers: &[Answer]) -> i128 {
    total(answers, |answer| match answer {
        Answer::Metered(grains) => *grains,
        _ => 0,
    })
}

/// What the released orders paid, cents.
pub fn payments(answers: &[Answer]) -> i128 {
    total(answers, |answer| match answer {
        Answer::Paid(_, cents) => *cents,
        _ => 0,
    })
}
