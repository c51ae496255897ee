// Tests alone: both journals through one script of calls, in memory that just holds its rows, and that just does not.
#![tactic(auto)]

#[cfg(test)]
mod tests;
