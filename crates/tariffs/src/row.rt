//! A row of figures as a filer gives it.
ghost use Rattle.std.specs.Prelude.{◌≡◌, ◌≤◌, length, slice_index};
ghost use Rattle.std.specs.List.{list_all};
ghost use Rattle.metering.specs.Verdict.{between};
ghost use Rattle.methodology.specs.Limits.{head_limit};
ghost use Rattle.tariffs.specs.Rows.{FirstOf, row_fits};

use rates::HEADS;
use std::array;

/// The filer's own count, which may be more than the table holds, and the first figures; past the count they are 0.
#[derive(Clone, Copy)]
pub struct Row {
    pub count: usize,
    pub figures: [u64; HEADS],
}

impl Row {
    /// The row of a list. Figures that it has not are 0.
    pub fn of(filed: &[u64]) -> Row
        ensures counted { result.count ≡ length filed.now }
        ensures kept { FirstOf filed.now result.figures }
    {
        Row {
            count: filed.len(),
            figures: array::from_fn(|place| filed.get(place).copied().unwrap_or(0)),
        }
    }

    /// The figure at an index; past the table it is 0.
    pub fn figure(&self, place: usize) -> u64
        ensures { result ≡ slice_index self.now.figures place }
    {
        self.figures.get(place).copied().unwrap_or(0)
    }

    /// Whether there are as many figures as wanted, each between low and high.
    pub(crate) fn fits(&self, low: u64, high: u64, wanted: usize) -> bool
        requires { wanted ≤ head_limit }
        ensures { result ≡ row_fits low high wanted self.now }
    {
        self.count == wanted && all_between(low, high, &self.figures[..wanted])
    }
}

/// Whether a figure lies between low and high.
pub(crate) fn lies_between(low: u64, high: u64, figure: u64) -> bool
    ensures { result ≡ between low high figure }
{
    (low..=high).contains(&figure)
}

/// Whether each figure lies between low and high.
fn all_between(low: u64, high: u64, figures: &[u64]) -> bool
    ensures { result ≡ list_all (between low high) figures.now }
{
    figures
        .iter()
        .all(|figure| lies_between(low, high, *figure))
}
