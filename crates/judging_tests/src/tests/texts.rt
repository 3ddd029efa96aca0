// Tests by what they look at.
mod keys;
mod lines;
mod pieces;
mod readings;
mod sizes;
mod streams;
