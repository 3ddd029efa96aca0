//! memcached's text protocol, and what its commands do to a lane of items. A test is a text whose steps are commands, or write a
//! stream of bytes and tell what is heard of it; the README says which steps there are.
mod answers;
mod commands;
mod hearing;
mod items;
mod lines;
mod meta;
mod meta_gets;
mod meta_stores;
mod refusals;
mod requests;
mod scripted;
mod sessions;
mod streams;
mod words;
