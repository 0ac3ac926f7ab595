//! A station's line: the figures of its agreement, and the index layers above it from the bottom up.
ghost use Rattle.std.specs.Prelude.{◌≡◌, []};
ghost use Rattle.stations.specs.Layers.{station_meaning};
ghost use Rattle.words.specs.Pieces.{left};
ghost use Rattle.journal.specs.Fields.{Takes};
ghost use Rattle.journal.specs.Places.{Gives, three_of, figures_of, layers, limits, station_of};

use crate::expected::Expected;
use crate::field::single;
use crate::name::Name;
use crate::unread::UnreadLine;
use stations::{BaseFigures, Station};
use std::alloc::Global;
use words::Words;

/// Takes three fields of one figure each.
#[tactic(auto, unfolding(crate::specs::Places::three_of))]
fn three(
    words: &mut Words,
    first: Name,
    second: Name,
    third: Name,
) -> Result<(u64, u64, u64), Expected>
    ensures { Takes (three_of first second third (left words.old)) result (left words.new) }
{
    let first = single(words, first)?;
    let second = single(words, second)?;
    let third = single(words, third)?;
    Ok((first, second, third))
}

/// Takes the kind of the agreement and its figures.
#[tactic(auto, unfolding(crate::specs::Places::figures_of, crate::specs::Places::two_part_of, crate::specs::Places::quota_of))]
fn filed(words: &mut Words) -> Result<BaseFigures, Expected>
    ensures { Takes (figures_of (left words.old)) result (left words.new) }
{
    let Some(kind) = words.next() else {
        return Err(Expected::Agreement);
    };
    match kind {
        b"two-part" => {
            let (contracted, capacity, energy) = three(
                words,
                Name::Contracted,
                Name::Capacity,
                Name::Energy,
            )?;
            Ok(BaseFigures::TwoPart {
                contracted,
                capacity,
                energy,
            })
        }
        b"quota" => {
            let (quota, first, second) = three(words, Name::Kwh, Name::First, Name::Second)?;
            Ok(BaseFigures::Quota {
                quota,
                first,
                second,
            })
        }
        _ => Err(Expected::Agreement),
    }
}

/// The factors of the layers, the lowest first, to the end of the line.
fn layers(heap: Global, mut words: Words) -> Result<Vec<u64>, UnreadLine>
    ensures { Gives (λ v. v.items) (layers [] (left words.entry)) result }
{
    let mut factors = Vec::new(heap);
    let mut ahead = words;
    // `ahead` only looks whether a word is left: `single` takes it.
    while let Some(_) = ahead.next() {
        let factor = single(&mut words, Name::Index)?;
        factors.push(factor)?;
        ahead = words;
    }
    Ok(factors)
}

/// What was expected where an agreement is over its limits.
fn limits(figures: BaseFigures) -> Expected
    ensures { result ≡ limits figures }
{
    match figures {
        BaseFigures::TwoPart { .. } => Expected::TwoPartLimits,
        BaseFigures::Quota { .. } => Expected::QuotaLimits,
    }
}

/// Reads what stands behind the word that begins a station's line.
#[tactic(auto, unfolding(crate::specs::Places::station_of))]
pub fn read_station(heap: Global, mut words: Words) -> Result<Station, UnreadLine>
    ensures { Gives station_meaning (station_of (left words.entry)) result }
{
    let figures = filed(&mut words)?;
    let factors = layers(heap, words)?;
    Station::new(figures, factors).map_err(|_| UnreadLine::Lacks(limits(figures)))
}
