//! Scripts and their traces: what no clause of the top call says.
#![tactic(auto)]

#[cfg(test)]
mod conds;
#[cfg(test)]
mod contexts;
#[cfg(test)]
mod selects;
#[cfg(test)]
mod syncs;
#[cfg(test)]
mod tests;
