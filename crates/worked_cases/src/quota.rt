//! The worked case of a quota: 25 kWh at 60,000 grains, the rest at 40,000; 20 kWh in block 2 and 30 kWh in block 12.
ghost use Rattle.std.specs.Prelude.{◌≡◌};
ghost use Rattle.worked_cases.specs.Quota.{worked_energies, worked_dues, WorkedQuota};

use agreements::{Agreement, Dues, Quota};
use metering::{BLOCKS, Figures, Reading, make_reading};

/// The reading of the case.
fn worked_reading() -> Reading
    ensures { result.blocks ≡ worked_energies }
{
    let mut blocks = [0; BLOCKS];
    blocks[2] = 20;
    blocks[12] = 30;
    let figures = Figures {
        kind: 1,
        number: 1,
        demand: 0,
        blocks,
    };
    let mut reading = Reading::empty();
    make_reading(&figures, &mut reading).unwrap();
    reading
}

/// Its dues, as the code gives them: 1,200,000 grains in block 2 and 1,300,000 in block 12.
pub fn worked_quota() -> Dues
    ensures value { result ≡ worked_dues }
    ensures law { WorkedQuota }
{
    let mut dues = Dues::empty();
    let quota = Quota::new(25, 60_000, 40_000).unwrap();
    quota.ask(&worked_reading(), &mut dues).unwrap();
    dues
}
