//! Two years in each methodology: four tariffs and twenty-four months, with an order drawn now and then.
ghost use Rattle.std.specs.Prelude.{◌<◌};

use crate::plan::{Plan, answers_to, half_year, three, two, two_years};
use crate::sums::{accounted, dues, payments, sheets_of, spread, standing};
use accounts::Sheet;
use arith::CENT;
use history::{Answer, Call};
use ledger::Refusal;
use methodology::{Methodology, ThreeIntervals, TwoIntervals};
use std::alloc::Global;
use std::ops::RangeInclusive;
use std::process::Abort;
use std::test::Fail;
use tariffs::{Filing, Row};

/// What is to come of a head: its rate under the first two tariffs, under the third and under the fourth, and its balance
/// after six months.
#[derive(Clone, Copy)]
struct ExpectedHead {
    rates: [u64; 3],
    balance: i64,
}

fn head(rates: [u64; 3], balance: i64) -> ExpectedHead {
    ExpectedHead { rates, balance }
}

/// What is to come of all heads, and the margin of each month.
#[derive(Clone, Copy)]
struct ExpectedYears {
    heads: [ExpectedHead; 6],
    margin: i64,
}

impl ExpectedYears {
    /// Six months under a tariff: their numbers, margins and published rates. The first two tariffs have the same rates.
    fn check_period(
        &self,
        rt: &impl Abort,
        sheets: &[Sheet],
        months: RangeInclusive<u8>,
        rate: usize,
    ) -> Result<(), Fail>
        requires { rate < 3 }
    {
        for (sheet, month) in sheets.iter().zip(months) {
            assert_eq!(rt; sheet.month, month);
            assert_eq!(rt; sheet.margin, self.margin, "in month {month}");
            for (line, head) in sheet.heads.iter().zip(&self.heads) {
                assert_eq!(rt; line.published, head.rates[rate], "in month {month}");
            }
        }
        Ok(())
    }

    /// What the first period leaves in the transactions account.
    fn check_balances(&self, rt: &impl Abort, sheet: &Sheet) -> Result<(), Fail> {
        for (line, head) in sheet.heads.iter().zip(&self.heads) {
            assert_eq!(rt; line.balance, head.balance);
        }
        Ok(())
    }
}

/// The months of a year together give each company what it was allowed. Its head comes after that of generation.
fn check_revenues(
    rt: &impl Abort,
    sheets: &[Sheet],
    before: Option<&Sheet>,
    allowed: &Row,
) -> Result<(), Fail> {
    let figures = &allowed.figures[..allowed.count.min(3)];
    for (place, figure) in figures.iter().enumerate() {
        let head = 1 + place;
        let carried = before.map_or(0, |sheet| sheet.heads[head].carry);
        assert_eq!(rt;
            spread(sheets, head, carried),
            i128::from(CENT) * i128::from(*figure),
            "head {head}"
        );
    }
    Ok(())
}

/// Bills, fractions, balances, carries and margins are dues and allowed revenues.
fn check_account(
    rt: &impl Abort,
    answers: &[Answer],
    sheets: &[Sheet],
    plan: &Plan,
) -> Result<(), Fail> {
    let last = sheets.last().ok_or("no month is closed")?;
    let dues = dues(answers);
    assert_eq!(rt; dues, 24 * 5_500_000);
    assert_eq!(rt; payments(answers), 24 * 550);
    let income = plan
        .revenues
        .iter()
        .flat_map(|row| &row.figures)
        .map(|figure| i128::from(CENT) * i128::from(*figure))
        .fold(dues, |sum, more| sum.wrapping_add(more));
    assert_eq!(rt; accounted(sheets).wrapping_add(standing(last)), income);
    Ok(())
}

fn walk<M: Methodology + Drop>(
    rt: &impl Abort,
    heap: Global,
    methodology: M,
    plan: &Plan,
    expected: &ExpectedYears,
) -> Result<(), Fail> {
    let mut calls = Vec::new(heap);
    two_years(&mut calls, plan)?;
    let answers = answers_to(heap, methodology, &calls)?;
    let sheets = sheets_of(heap, &answers)?;
    if sheets.len() != 24 {
        return Err("a month is not closed".into());
    }
    expected.check_period(rt, &sheets[..6], 1..=6, 0)?;
    expected.check_period(rt, &sheets[6..12], 7..=12, 0)?;
    expected.check_period(rt, &sheets[12..18], 1..=6, 1)?;
    expected.check_period(rt, &sheets[18..], 7..=12, 2)?;
    expected.check_balances(rt, &sheets[5])?;
    check_revenues(rt, &sheets[..12], None, &plan.revenues[0])?;
    check_revenues(rt, &sheets[12..], Some(&sheets[11]), &plan.revenues[1])?;
    check_account(rt, &answers, &sheets, plan)
}

/// Period 1 brings G dues of 6 * 2,000,000, of which 30 are carried on, for 6 * 90 * 20,000 that were billed: D is
/// 1,199,970, over peaks of 540 that is 2,222 more. Period 2 brings the same, and with a tenth more that is 2,444.
/// E2 brings -840,009 in either period, over 114 kWh that is -7,369, and with a tenth more -8,106.
#[test]
fn two_years_of_three_intervals(rt: HostRuntime) -> Result<(), Fail> {
    let expected = ExpectedYears {
        heads: [
            head([20_000, 22_222, 22_444], 1_199_970),
            head([9_000, 9_259, 9_284], 139_950),
            head([907, 925, 927], 10_170),
            head([52_000, 53_571, 53_728], 263_984),
            head([60_000, 52_631, 51_894], -840_009),
            head([50_000, 55_555, 56_110], 599_994),
        ],
        margin: 0,
    };
    walk(&rt, rt.alloc(), ThreeIntervals, &three(), &expected)
}

/// Of 20 kWh at E1 and 50 at E2 the allowed supply is 19 * 1.05 and 46 * 1.05, so 19 and 48 kWh: a month's margin is 50,000
/// for each of three. E1 brings 6 * 19 * (50,000 - 63,000) in period 1, over 114 kWh that is -13,000.
#[test]
fn two_years_of_two_intervals(rt: HostRuntime) -> Result<(), Fail> {
    let expected = ExpectedYears {
        heads: [
            head([20_000, 22_222, 22_444], 1_199_970),
            head([9_000, 9_259, 9_284], 139_950),
            head([907, 925, 927], 10_170),
            head([462, 462, 463], 450),
            head([63_000, 50_000, 48_700], -1_482_000),
            head([52_500, 52_173, 52_140], -90_022),
        ],
        margin: 150_000,
    };
    walk(&rt, rt.alloc(), TwoIntervals, &two(), &expected)
}

/// In the third tariff E2 is to give back 7,369 a kWh, of a base rate of 0.
#[test]
fn a_rate_below_zero_is_not_published(rt: HostRuntime) -> Result<(), Fail> {
    let plan = three();
    let heap = rt.alloc();
    let mut calls = Vec::new(heap);
    calls.push(Call::Year(plan.revenues[0]))?;
    half_year(&mut calls, plan.filing, 0)?;
    half_year(&mut calls, plan.filing, 1)?;
    calls.push(Call::Year(plan.revenues[1]))?;
    let place = calls.len();
    calls.push(Call::Tariff(Filing {
        coefficients: Row::of(&[1_000, 0, 1_000]),
        ..plan.filing
    }))?;
    calls.push(Call::Tariff(plan.filing))?;
    let answers = answers_to(heap, ThreeIntervals, &calls)?;
    assert_eq!(rt;
        answers.get(place).and_then(Answer::refusal),
        Some(Refusal::RateOutOfRange(5))
    );
    assert!(rt;
        matches!(answers.last(), Some(Answer::Accepted)),
        "with the coefficient as it was"
    );
    Ok(())
}
