//! Worked runs of jobs on workers. They cross crates, so they stand in one of their own, which has nothing else.
#![tactic(auto)]

#[cfg(test)]
mod count;
#[cfg(test)]
mod lanes;
#[cfg(test)]
mod meets;
#[cfg(test)]
mod runs;
