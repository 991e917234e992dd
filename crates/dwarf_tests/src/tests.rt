//! Tests of what neither the program nor the archive can show.

mod allocators;
mod bounds;
mod equality;
mod evaluation;
mod lists;
mod operations;
mod readers;
mod reading;
mod reads;
mod refusals;
mod replays;
mod values;
