// What no clause of the checker says: outside rows, and readers, writers and memory that fail.
mod effects;
mod hashing;
mod judging;
mod verdicts;
