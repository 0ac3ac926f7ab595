//! A tariff that is filed well, and the rates of its heads.
ghost use Rattle.std.specs.Prelude.{◌≡◌, ◌*◌, ◌<◌, ◌≤◌, true};
ghost use Rattle.arith.specs.Money.{cent};
ghost use Rattle.tariffs.specs.Filing.{filing_fits};
ghost use Rattle.tariffs.specs.Limits.{cost_limit};
ghost use Rattle.tariffs.specs.Publishing.{per_cost, first_interval, generation_energy, Publishes};

use crate::filed_head::FiledHead;
use crate::filing::Filing;
use crate::refusal::TariffFault;
use arith::{CENT, split};
use methodology::Shape;
use rates::{HEADS, HeadRates, Rates};

/// The number of the first interval's head, in a market with no revenues: it comes after generation.
const FIRST_INTERVAL: usize = 2;

/// A filing that fits the heads of a shape and keeps its limits, and with it all that is worked out from it.
#[derive(Clone, Copy)]
pub(crate) struct Filed {
    pub(crate) shape: Shape,
    pub(crate) filing: Filing,
    ghost fitting: { filing_fits shape filing ≡ true },
}

impl Filed {
    ghost use Rattle.tariffs.specs.Filed.{Files};

    /// The filing, where it fits the heads and keeps its limits.
    #[tactic(auto, using(std::proofs::lemmas::Bool::Decides::nat_tests), unfolding(crate::specs::Filing::filing_fits))]
    pub(crate) fn new(shape: Shape, filing: &Filing) -> Result<Filed, TariffFault>
        ensures { Files shape filing.now result }
    {
        if !filing.rows_fit(shape) || !filing.singles_fit() {
            return Err(TariffFault::Misfiled);
        }
        Ok(Filed {
            shape,
            filing: *filing,
        })
    }

    /// The rates of all heads, or the lowest head one of whose tests fails.
    pub(crate) fn rates(&self, earlier: &[i64; HEADS]) -> Result<Rates, TariffFault>
        ensures { Publishes self.now.shape self.now.filing earlier.now result }
    {
        let mut heads = [HeadRates::unset(); HEADS];
        for (place, differences) in earlier[..self.shape.heads()].iter().enumerate() {
            let head = FiledHead {
                filed: self,
                number: place + 1,
            };
            heads[place] = head.rates(*differences)?;
        }
        Ok(Rates {
            shape: self.shape,
            heads,
        })
    }

    /// The number of the first interval's head.
    pub(crate) fn first_interval(&self) -> usize
        ensures { result ≡ first_interval self.now.shape }
    {
        FIRST_INTERVAL + self.shape.revenues
    }

    /// What a kWh that is sent in costs, grains.
    pub(crate) fn generation_energy(&self) -> u64
        ensures value { result ≡ generation_energy self.now.filing }
        ensures most { result ≤ cent * cost_limit }
    {
        per_cost(self.filing.energy_cost, self.filing.sent)
    }
}

/// A cost in cents over a quantity, grains per unit.
pub(crate) fn per_cost(cents: u64, quantity: u64) -> u64
    requires { (cents ≤ cost_limit) × (0 < quantity) }
    ensures value { result ≡ per_cost cents quantity }
    ensures most { result ≤ cent * cost_limit }
{
    let (rate, _) = split(CENT * cents, quantity).unwrap();
    rate
}
