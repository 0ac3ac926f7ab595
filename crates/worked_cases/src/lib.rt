//! Cases whose figures are known: each a theorem about the definitions, a quota's dues and the first month also through the code.
#![tactic(auto)]

pub mod month;
pub mod quota;

pub use month::{FirstHouse, FirstMonth, first_month};
pub use quota::worked_quota;
