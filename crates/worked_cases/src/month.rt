//! The first month of a market with one station and one licensee.
ghost use Rattle.std.specs.Prelude.{◌≡◌};
ghost use Rattle.sheet.specs.Text.{sheet_text};
ghost use Rattle.worked_cases.specs.FirstMonth.{first_text, FirstRun};
ghost use Rattle.worked_cases.specs.Cases.{WorkedCases};
ghost use Rattle.house.specs.Shown.{shows};

use accounts::Sheet;
use agreements::TwoPart;
use banks::One;
use house::House;
use methodology::{Methodology, ThreeIntervals};
use worked_figures::{agreement, sent, taken, tariff, year};

/// The house of the first month: three intervals, and one station under a two-part agreement.
pub type FirstHouse = House<One<TwoPart>, ThreeIntervals>;

/// The house after its first month, and the month's sheet.
#[derive(Drop)]
pub struct FirstMonth {
    /// After the closing.
    pub house: FirstHouse,
    /// What the closing filled in.
    pub sheet: Sheet,
}

/// Files a year and a tariff, takes one reading from each side, and closes the month.
pub fn first_month(serial: u64) -> FirstMonth
    ensures text { sheet_text result.sheet ≡ first_text }
    ensures run { FirstRun serial result.sheet (shows result.house) }
    ensures cases { WorkedCases }
{
    let mut house = House::new(One::new(agreement()), ThreeIntervals, serial);
    let mut sheet = Sheet::empty(ThreeIntervals::shape());
    house.year(&year()).unwrap();
    house.tariff(&tariff()).unwrap();
    house.meter(&sent()).unwrap();
    house.deliver(&taken()).unwrap();
    house.close(1, 1, &mut sheet).unwrap();
    FirstMonth { house, sheet }
}
