//! Properties of the libraries below a run that no contract and no row of `tests/calls` or
//! `tests/drawn_calls` states.

mod bits;
mod captures;
mod due;
mod links;
mod log_texts;
mod messages;
mod numbers;
mod records;
mod states;
mod texts;
