//! Worked cases of the board. They cross crates, so they stand in one of their own, which has nothing else.
#![tactic(auto)]

#[cfg(test)]
mod calls;
#[cfg(test)]
mod failed;
#[cfg(test)]
mod looks;
#[cfg(test)]
mod seats;
