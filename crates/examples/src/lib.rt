// Examples, each proved to be safe and then run.
#![tactic(auto)]

#[cfg(test)]
mod listings;
#[cfg(test)]
mod sources;
#[cfg(test)]
mod stores;
