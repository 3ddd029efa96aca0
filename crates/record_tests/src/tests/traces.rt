mod checker;
mod rows;
mod traces;
mod verdicts;
