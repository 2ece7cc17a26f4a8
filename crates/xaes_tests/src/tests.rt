//! The modules of tests, and what they share.

mod checks;
mod example_callers;
mod examples;
mod expanded;
mod messages;
