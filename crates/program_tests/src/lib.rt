//! Tests of the program's call: each command, over arguments, an input, an output and a file in memory, and `serve`, over
//! gates, links and dials in memory and of the tests' own. They show what no clause says: that there is memory where there is
//! enough, and the bytes themselves.
//!
//! The call is made in `programs`, by `carry_out`, and in `servers`, by `tardis`; so its proof is paid twice, and the tests
//! compare what it comes to with rows.
#![tactic(auto)]

#[cfg(test)]
mod command_rows;
#[cfg(test)]
mod devices;
#[cfg(test)]
mod of_addresses;
#[cfg(test)]
mod of_links;
#[cfg(test)]
mod of_peers;
#[cfg(test)]
mod of_tardis_main;
#[cfg(test)]
mod of_waiting_links;
#[cfg(test)]
mod programs;
#[cfg(test)]
mod servers;
#[cfg(test)]
mod trails;
