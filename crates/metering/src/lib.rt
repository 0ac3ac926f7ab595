//! Readings: what a meter measured in a month, its limits, and why figures are turned down.
#![tactic(auto)]

pub mod figures;
pub mod half_hour;
pub mod header;
pub mod index;
pub mod kind;
pub mod limits;
pub mod reading;
pub mod short_buffer;

pub use figures::{Figures, FiguresRefusal, make_reading};
pub use half_hour::HalfHour;
pub use header::{BlockRefusal, Header, HeaderRefusal};
pub use index::index_of;
pub use kind::{Kind, UnknownKind};
pub use limits::{
    BLOCKS, DEMAND_LIMIT, ENERGY_LIMIT, LICENSEE_COUNT, LICENSEES, PLACE_COUNT, PLACES,
};
pub use reading::Reading;
pub use short_buffer::ShortBuffer;
