// The calendar core for C: the functions of include/jogipahn.h, in the archive libjogipahn.a. `crates/jogipahn` is the same
// for callers in Rattle.

#![tactic(auto)]

mod c_api;
mod c_batches;
mod c_check;
mod c_civil;
mod c_journal;
mod c_open;
mod c_steps;
mod c_walk;
