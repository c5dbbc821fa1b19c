//! Tests of calls that no command shows; those of servers are in `test_server`. They are in one
//! crate, since each crate of tests loads its libraries twice, and has their code compiled. What
//! commands show is in rows of the program `rows`.
#![tactic(auto)]

#[cfg(test)]
mod device_files;
#[cfg(test)]
mod failing_records;
#[cfg(test)]
mod failing_steps;
#[cfg(test)]
mod files;
#[cfg(test)]
mod kept_counters;
#[cfg(test)]
mod machine;
#[cfg(test)]
mod passes;
#[cfg(test)]
mod posts;
#[cfg(test)]
mod published;
#[cfg(test)]
mod replies;
#[cfg(test)]
mod requests;
#[cfg(test)]
mod staged;
