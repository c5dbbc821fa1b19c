//! Tests of the lines of a log: each kind of event, times, texts with escapes, texts that are cut,
//! requests of many apps, and lines that would be too long. The lines were written by hand. And
//! days and times of a log.
#![tactic(auto)]

#[cfg(test)]
mod app_samples;
#[cfg(test)]
mod apps;
#[cfg(test)]
mod calendars;
#[cfg(test)]
mod events;
#[cfg(test)]
mod given;
#[cfg(test)]
mod kinds;
#[cfg(test)]
mod limits;
#[cfg(test)]
mod named_times;
#[cfg(test)]
mod samples;
#[cfg(test)]
mod texts;
#[cfg(test)]
mod times;
