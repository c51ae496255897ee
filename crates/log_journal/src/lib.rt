// A journal in one run of lent bytes: the rows of a log, one behind the other, and zeros behind them.
#![tactic(auto)]

mod store;
#[cfg(test)]
mod tests;
mod walk;

pub use store::LogJournal;
