mod faults;
mod files;
mod keeping;
mod late_names;
mod refusals;
