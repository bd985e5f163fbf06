//! Tests of the text formats, of digests and streams: of `idset`, `hostlist`, `fl_json`,
//! `event_log`, `fl_digest` and `outside`.
#![tactic(auto)]

#[cfg(test)]
mod hosts;
#[cfg(test)]
mod logs;
#[cfg(test)]
mod roots;
#[cfg(test)]
mod sets;
#[cfg(test)]
mod streams;
#[cfg(test)]
mod values;
