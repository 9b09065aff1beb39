// The lift log of a workshop crane: lifts, their records, a session with the log, its pages read back, and what a planner reads of it.
#![tactic(auto)]

mod error;
mod lift;
mod records;
mod report;
mod session;
mod store;
mod time;

pub use error::LogError;
pub use lift::Lift;
pub use report::Summary;
pub use session::Session;
pub use store::{Pages, Stored, read_back};
pub use time::HoistingTime;

#[cfg(test)]
mod tests;
