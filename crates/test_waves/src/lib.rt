//! What no contract says and no case of the programs test_* shows, of designs, their jobs, waves and cones: each public
//! call that takes memory comes to its answer where there is memory. `test_calls` has what stands below.
#![tactic(auto)]

#[cfg(test)]
mod asserted;
#[cfg(test)]
mod conditions;
#[cfg(test)]
mod cones;
#[cfg(test)]
mod designs;
#[cfg(test)]
mod job;
#[cfg(test)]
mod lanes;
#[cfg(test)]
mod largest;
#[cfg(test)]
mod waves;
