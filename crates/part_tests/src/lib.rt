//! Tests of the parts, over their public calls: what no clause of theirs says, and no row of a whole site shows (`site_tests`).
//! Bytes, lines, devices, loops, the trail, the lock, peers, sockets, and the texts of faults.
//!
//! A crate with tests of its own is proved once more for them; so these stand here (`docs/ADDING.md`, 'A test').
#![tactic(auto)]

#[cfg(test)]
mod counters;
#[cfg(test)]
mod letters;
#[cfg(test)]
mod of_dag_lock;
#[cfg(test)]
mod of_disk_forms;
#[cfg(test)]
mod of_faults;
#[cfg(test)]
mod of_item_bytes;
#[cfg(test)]
mod of_log_groups;
#[cfg(test)]
mod of_log_text;
#[cfg(test)]
mod of_memory_disks;
#[cfg(test)]
mod of_memory_io;
#[cfg(test)]
mod of_shell_text;
#[cfg(test)]
mod of_site_checkpoint;
#[cfg(test)]
mod of_site_peers;
#[cfg(test)]
mod of_site_run;
#[cfg(test)]
mod of_socket_links;
#[cfg(test)]
mod of_state_dag;
#[cfg(test)]
mod of_talk_bytes;
#[cfg(test)]
mod of_tardis_base;
#[cfg(test)]
mod of_tardis_io;
#[cfg(test)]
mod of_trail_log;
#[cfg(test)]
mod of_twin_stores;
#[cfg(test)]
mod of_wire_questions;
#[cfg(test)]
mod streams;
