//! Filing the allowed revenues of a year.
ghost use Rattle.tariffs.specs.Years.{FilesYear};

use crate::refusal::YearRefused;
use crate::row::Row;
use methodology::Shape;
use rates::{Revenues, YEARLY_LIMIT};
use std::array;

/// The revenues that the market's companies may collect in the year. Refused with 13 where the count is not theirs, or a figure
/// is over `YEARLY_LIMIT`.
pub fn file_year(shape: Shape, filed: &Row) -> Result<Revenues, YearRefused>
    ensures { FilesYear shape filed.now result }
{
    if !filed.fits(0, YEARLY_LIMIT, shape.revenues) {
        return Err(YearRefused);
    }
    Ok(Revenues {
        yearly: array::from_fn(|j| if j < shape.revenues {
            filed.figure(j)
        } else {
            0
        }),
    })
}
