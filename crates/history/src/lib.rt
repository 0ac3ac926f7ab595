//! Lists of calls performed one after another on a new house, and the law that holds after each.
#![tactic(auto)]

pub mod answer;
pub mod call;
pub mod desk;
pub mod new_house;
pub mod order_list;
pub mod performance;
pub mod spending;

pub use answer::Answer;
pub use call::{Call, Named, Stated};
pub use new_house::NewHouse;
pub use order_list::Orders;
pub use performance::{Performance, Unperformed};
pub use spending::Spending;
