//! What a market files in two years, and the calls that are made of its house.
use banks::One;
use history::{Answer, Call, Named, NewHouse, Spending};
use methodology::Methodology;
use std::alloc::{AllocError, Global};
use tariffs::{Filing, Row};
use worked_figures::{agreement, sent, taken, tariff, year};

/// The revenues of each year, and a tariff, of which the fourth has an interest of a tenth.
#[derive(Drop)]
pub struct Plan {
    pub revenues: [Row; 2],
    pub filing: Filing,
}

/// Two years of three intervals.
pub fn three() -> Plan {
    Plan {
        revenues: [year(), Row::of(&[1_300, 130])],
        filing: tariff(),
    }
}

/// Two years of two intervals.
pub fn two() -> Plan {
    Plan {
        revenues: [Row::of(&[1_000, 100, 50]), Row::of(&[1_300, 130, 65])],
        filing: Filing {
            costs: Row::of(&[1_080, 486, 49, 25]),
            peaks: 540,
            energy_cost: 2_100,
            sent: 420,
            delivered: Row::of(&[114, 276]),
            factors: Row::of(&[50_000, 50_000]),
            coefficients: Row::of(&[1_200, 1_000]),
            interest: 0,
        },
    }
}

/// What is done after a month with all that stands, and which draw it is.
fn payment_after(month: usize) -> Option<(usize, Spending)> {
    match month {
        3 => Some((1, Spending::Release)),
        8 => Some((2, Spending::Hold)),
        12 => Some((3, Spending::Release)),
        24 => Some((4, Spending::Release)),
        _ => None,
    }
}

/// A tariff, and the six months under it.
pub fn half_year(calls: &mut Vec<Call>, filing: Filing, half: u8) -> Result<(), AllocError> {
    calls.push(Call::Tariff(filing))?;
    for month in 1..7 {
        calls.push(Call::Meter(sent()))?;
        calls.push(Call::Deliver(taken()))?;
        calls.push(Call::closing(1, 1))?;
        if let Some((number, how)) = payment_after(6 * usize::from(half) + month) {
            calls.push(Call::Draw(1))?;
            calls.push(Call::Present(how, Named::Drawn(number)))?;
        }
    }
    Ok(())
}

/// Adds the calls of two years.
pub fn two_years(calls: &mut Vec<Call>, plan: &Plan) -> Result<(), AllocError> {
    calls.push(Call::Year(plan.revenues[0]))?;
    half_year(calls, plan.filing, 0)?;
    half_year(calls, plan.filing, 1)?;
    calls.push(Call::Year(plan.revenues[1]))?;
    half_year(calls, plan.filing, 2)?;
    let with_interest = Filing {
        interest: 100_000,
        ..plan.filing
    };
    half_year(calls, with_interest, 3)
}

/// What is answered to the calls of a house over one agreement: 100 kW at 20,000 grains, and 50,000 a kWh.
pub fn answers_to<M: Methodology + Drop>(
    heap: Global,
    methodology: M,
    calls: &[Call],
) -> Result<Vec<Answer>, AllocError> {
    let house = NewHouse {
        bank: One::new(agreement()),
        methodology,
        serial: 1,
    };
    Ok(house.perform_alone(heap, calls)?.hold_all().1)
}
