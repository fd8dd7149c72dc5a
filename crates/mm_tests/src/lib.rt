//! Tests of what no clause says and no script shows to a built program, in a crate of their own: a
//! crate with tests is proved twice.
#![tactic(auto)]

#[cfg(test)]
mod behind;
#[cfg(test)]
mod changes;
#[cfg(test)]
mod devices;
#[cfg(test)]
mod entries;
#[cfg(test)]
mod failing;
#[cfg(test)]
mod flights;
#[cfg(test)]
mod full;
#[cfg(test)]
mod gaps;
#[cfg(test)]
mod lines;
#[cfg(test)]
mod logs;
#[cfg(test)]
mod moves;
#[cfg(test)]
mod ranges;
#[cfg(test)]
mod streams;
#[cfg(test)]
mod worlds;
#[cfg(test)]
mod wset;
