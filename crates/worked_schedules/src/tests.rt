//! The tests, with what builds their scenes.

mod build;
mod nested;
mod parents;
mod roots;
mod schedules;
mod sizes;
