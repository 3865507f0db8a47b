// Three counts that are never mixed: ticks of the clock, firings of an actor, tokens of a channel. Here each is reckoned with its own kind, under one
// vocabulary, and no other crate sees its field; what leads from one kind to another is the period rule and the rate rule alone.
// No From and no Into: what makes a count of a number, and gives the number back, bears the kind's name, so that no place mixes two (the paper's form).
#![tactic(auto)]

pub mod bounds;
mod counts;
pub mod digits;
mod firings;
pub mod limits;
mod ticks;
mod tokens;

pub use counts::Count;

// Ticks of the clock.
#[derive(Clone, Copy)]
pub struct Tick(u64);

// Firings of an actor.
#[derive(Clone, Copy)]
pub struct Firing(u64);

// Tokens of a channel.
#[derive(Clone, Copy)]
pub struct Token(u64);
