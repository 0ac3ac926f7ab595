//! Tariffs that are turned down for a figure that is out of its range, or for a rate that is.
use crate::market::{checked_answers, filing, tariff, year};
use crate::reply::Reply;
use history::Call;
use ledger::Refusal;
use std::alloc::AllocError;
use std::test::Fail;
use tariffs::limits::{COST_LIMIT, DELIVERED_LIMIT, SENT_LIMIT};
use tariffs::{Filing, Row};

/// Filings with one count that does not fit the heads.
fn miscounted() -> [Filing; 5] {
    let filing = filing();
    [
        Filing {
            costs: Row::of(&[1_080, 486]),
            ..filing
        },
        Filing {
            costs: Row::of(&[1_080, 486, 49, 0]),
            ..filing
        },
        Filing {
            delivered: Row::of(&[168, 114]),
            ..filing
        },
        Filing {
            factors: Row::of(&[40_000, 0]),
            ..filing
        },
        Filing {
            coefficients: Row::of(&[1_000, 1_200, 1_000, 1_000]),
            ..filing
        },
    ]
}

/// Filings with one figure that is out of its range.
fn misfigured() -> [Filing; 11] {
    let filing = filing();
    [
        Filing {
            costs: Row::of(&[1_080, COST_LIMIT + 1, 49]),
            ..filing
        },
        Filing { peaks: 0, ..filing },
        Filing {
            peaks: 96_000_001,
            ..filing
        },
        Filing {
            energy_cost: COST_LIMIT + 1,
            ..filing
        },
        Filing { sent: 0, ..filing },
        Filing {
            sent: SENT_LIMIT + 1,
            ..filing
        },
        Filing {
            delivered: Row::of(&[168, 0, 108]),
            ..filing
        },
        Filing {
            delivered: Row::of(&[168, 114, DELIVERED_LIMIT + 1]),
            ..filing
        },
        Filing {
            factors: Row::of(&[1_000_001, 0, 0]),
            ..filing
        },
        Filing {
            coefficients: Row::of(&[1_000, 1_200, 4_001]),
            ..filing
        },
        Filing {
            interest: 1_000_001,
            ..filing
        },
    ]
}

/// Every figure at its limit. GE is 10,000 * 10^14 / 10^11 = 10^7, and the intervals' rates are 2 * 4 * 10^7.
fn greatest() -> Filing {
    Filing {
        costs: Row::of(&[COST_LIMIT, COST_LIMIT, COST_LIMIT]),
        peaks: 96_000_000,
        energy_cost: COST_LIMIT,
        sent: SENT_LIMIT,
        delivered: Row::of(&[DELIVERED_LIMIT, DELIVERED_LIMIT, DELIVERED_LIMIT]),
        factors: Row::of(&[1_000_000, 1_000_000, 1_000_000]),
        coefficients: Row::of(&[4_000, 4_000, 4_000]),
        interest: 1_000_000,
    }
}

/// Adds the filings to a list, each as one that does not fit.
fn misfiled(list: &mut Vec<(Call, Reply)>, filings: &[Filing]) -> Result<(), AllocError> {
    for filing in filings {
        list.push((Call::Tariff(*filing), Reply::Refused(Refusal::Misfiled)))?;
    }
    Ok(())
}

#[test]
fn counts_fit_the_heads_and_figures_keep_their_ranges(rt: HostRuntime) -> Result<(), Fail> {
    let heap = rt.alloc();
    let mut list = Vec::new(heap);
    list.push((year(), Reply::Accepted))?;
    misfiled(&mut list, &miscounted())?;
    misfiled(&mut list, &misfigured())?;
    list.push((Call::Tariff(greatest()), Reply::Accepted))?;
    checked_answers(&rt, heap, &list)?;
    Ok(())
}

/// Filings with a rate that is out of its range, and the first such head. Where GE is 10,000 * 10,000 / 1 = 10^8, it is at
/// its limit, and so is a cost of 5,000,000 cents over a peak of 1.
fn misrated() -> [(Filing, usize); 8] {
    let filing = Filing {
        peaks: 1,
        energy_cost: 10_000,
        sent: 1,
        factors: Row::of(&[0, 0, 0]),
        coefficients: Row::of(&[1_000, 1_000, 1_000]),
        ..filing()
    };
    [
        (
            Filing {
                costs: Row::of(&[COST_LIMIT, 486, 49]),
                ..filing
            },
            1,
        ),
        (
            Filing {
                costs: Row::of(&[5_000_000, 5_000_001, 5_000_001]),
                ..filing
            },
            2,
        ),
        (
            Filing {
                costs: Row::of(&[1_080, 486, 5_000_001]),
                energy_cost: 10_001,
                ..filing
            },
            3,
        ),
        (
            Filing {
                energy_cost: 10_001,
                ..filing
            },
            4,
        ),
        (
            Filing {
                energy_cost: 10_001,
                coefficients: Row::of(&[0, 0, 0]),
                ..filing
            },
            4,
        ),
        (
            Filing {
                factors: Row::of(&[1, 0, 0]),
                ..filing
            },
            4,
        ),
        (
            Filing {
                coefficients: Row::of(&[1_000, 1_001, 1_001]),
                ..filing
            },
            5,
        ),
        (
            Filing {
                factors: Row::of(&[0, 0, 1_000_000]),
                coefficients: Row::of(&[1_000, 1_000, 501]),
                ..filing
            },
            6,
        ),
    ]
}

#[test]
fn the_first_head_whose_rate_is_out_of_range_is_named(rt: HostRuntime) -> Result<(), Fail> {
    let heap = rt.alloc();
    let mut list = Vec::new(heap);
    list.push((year(), Reply::Accepted))?;
    for (filing, head) in &misrated() {
        let refusal = Refusal::RateOutOfRange(*head);
        list.push((Call::Tariff(*filing), Reply::Refused(refusal)))?;
    }
    list.push((tariff(), Reply::Accepted))?;
    checked_answers(&rt, heap, &list)?;
    Ok(())
}

/// A half is taken of what twice the limit would be, and the middle value is not tested.
#[test]
fn a_rate_at_its_limit_is_published(rt: HostRuntime) -> Result<(), Fail> {
    let greatest = Filing {
        costs: Row::of(&[5_000_000, 5_000_000, 5_000_000]),
        peaks: 1,
        energy_cost: 10_000,
        sent: 1,
        factors: Row::of(&[0, 0, 1_000_000]),
        coefficients: Row::of(&[1_000, 1_000, 500]),
        ..filing()
    };
    let list = [
        (year(), Reply::Accepted),
        (Call::Tariff(greatest), Reply::Accepted),
        (tariff(), Reply::Refused(Refusal::NotNow)),
    ];
    checked_answers(&rt, rt.alloc(), &list)?;
    Ok(())
}
