// Texts that are judged as their calls come, with a window.
mod random;
mod rows;
