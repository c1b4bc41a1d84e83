//! Worked cases, from records to the rows of a report: tests alone.
#![tactic(auto)]

#[cfg(test)]
mod tests;
