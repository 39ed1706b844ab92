//! A step of the collector, and the parts that it is made of.
#![tactic(auto)]

mod claiming;
mod emptying;
mod finishing;
mod mark;
mod others;
mod outside;
mod train;
mod whole;

pub use mark::marks_follow_the_model;
pub use whole::step;
