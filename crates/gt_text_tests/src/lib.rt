//! Worked texts for the readers: durations, scripts, and what is refused.
#![tactic(auto)]

#[cfg(test)]
mod channels;
#[cfg(test)]
mod contexts;
#[cfg(test)]
mod durations;
#[cfg(test)]
mod scripts;
#[cfg(test)]
mod selects;
#[cfg(test)]
mod syncs;
#[cfg(test)]
mod tickers;
