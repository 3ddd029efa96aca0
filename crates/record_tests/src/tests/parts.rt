//! What no clause of the small libraries says: that calls succeed, and values from outside.
mod budgets;
mod devices;
mod entering;
mod filters;
mod hits;
mod index;
mod leaving;
mod memory;
mod places;
mod plans;
mod sights;
