//! Servers over loopback, with their clients and their operator: what needs threads, clocks, or a
//! device that fails. What one client gets after the other is in rows of the program `rows`.
#![tactic(auto)]

#[cfg(test)]
mod app_halts;
#[cfg(test)]
mod ending;
#[cfg(test)]
mod gated;
#[cfg(test)]
mod impaired;
#[cfg(test)]
mod log_lines;
#[cfg(test)]
mod logged;
#[cfg(test)]
mod loopback;
#[cfg(test)]
mod manifests;
#[cfg(test)]
mod servers;
#[cfg(test)]
mod stopped;
#[cfg(test)]
mod stored;
#[cfg(test)]
mod swaps;
#[cfg(test)]
mod totals;
#[cfg(test)]
mod turns;
#[cfg(test)]
mod whole_log;
#[cfg(test)]
mod withheld;
