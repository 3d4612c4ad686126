// Both ends as tests: replays of the sample books, whole shifts, and the edges of every refusal.
#![tactic(auto)]

#[cfg(test)]
mod bench;
#[cfg(test)]
mod replays;
#[cfg(test)]
mod samples;
