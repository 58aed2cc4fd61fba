//! Tests of the program over public calls: worked runs of each command, sources and sinks that fail, stops and
//! failures of disks, disks that are replaced, and work that really runs at once.
#![tactic(auto)]

#[cfg(test)]
mod captures;
#[cfg(test)]
mod falls;
#[cfg(test)]
mod gates;
#[cfg(test)]
mod runs;
#[cfg(test)]
mod steps;
#[cfg(test)]
mod swaps;
#[cfg(test)]
mod texts;
#[cfg(test)]
mod worked;
