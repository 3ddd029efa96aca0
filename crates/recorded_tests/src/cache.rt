//! A cache that threads share: what was put is found by each caller, and its calls are one history that the checker
//! accepts.
mod apart;
mod clock;
mod finishing;
mod gate;
mod gates;
mod going_back;
mod many;
mod meeting;
mod opened;
mod played;
mod rounds;
mod rows;
mod run;
mod test_device;
mod test_policy;
mod threads;
