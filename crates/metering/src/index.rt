//! Lists that are counted from 0, of things that people number from 1.
ghost use Rattle.std.specs.Prelude.{MatchOption};
ghost use Rattle.metering.specs.Indexes.{IsOutside, StandsAt};

/// Where the one with this number stands in a list of so many, if the list has it.
pub fn index_of(number: usize, count: usize) -> Option<usize>
    ensures { MatchOption result (IsOutside number count) (StandsAt number count) }
{
    number.checked_sub(1).filter(|index| *index < count)
}
