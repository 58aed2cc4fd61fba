//! Tests of the crates below the nodes, over their public calls: adapters of input and output, cryptography with
//! published vectors, and frames and commands as they are sent.
#![tactic(auto)]

#[cfg(test)]
mod adapters;
#[cfg(test)]
mod aes;
#[cfg(test)]
mod ccm;
#[cfg(test)]
mod commands;
#[cfg(test)]
mod counting;
#[cfg(test)]
mod crc;
#[cfg(test)]
mod disks;
#[cfg(test)]
mod hash;
#[cfg(test)]
mod install_codes;
#[cfg(test)]
mod records;
#[cfg(test)]
mod seals;
#[cfg(test)]
mod stores;
