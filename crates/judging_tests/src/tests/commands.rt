//! What is reported, and how the program ends.
mod files;
mod json;
mod junit;
mod pages;
mod rows;
mod seeds;
mod streams;
mod telling;
mod turns;
mod warm;
