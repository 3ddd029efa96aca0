//! Pages against the bytes of the format, written out by hand.
mod limits;
mod reading;
mod rows;
mod writing;
