//! Recorded lanes, and the layout of what they did.
mod beside;
mod calls;
mod fuses;
mod layouts;
mod unfinished;
mod worlds;
