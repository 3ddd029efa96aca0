mod book;
mod cache;
mod for_c;
mod lane;
mod seated;
mod server;
mod words;
