//! Tests of what runs over a whole site, over public calls: worked rows through its commands and through its step, merges by
//! rules, exports and imports, worlds, loads, durable runs over disks that crash, and the server's ends.
//!
//! A crate with tests of its own is proved once more for them; so these stand here (`docs/ADDING.md`, 'A test').
#![tactic(auto)]

#[cfg(test)]
mod auto_rows;
#[cfg(test)]
mod collection_rows;
#[cfg(test)]
mod disks;
#[cfg(test)]
mod exchange_rows;
#[cfg(test)]
mod file_rows;
#[cfg(test)]
mod floor_rows;
#[cfg(test)]
mod journal_rows;
#[cfg(test)]
mod lines;
#[cfg(test)]
mod locks;
#[cfg(test)]
mod merge_rows;
#[cfg(test)]
mod of_auto_run;
#[cfg(test)]
mod of_collection;
#[cfg(test)]
mod of_durable_run;
#[cfg(test)]
mod of_exchange;
#[cfg(test)]
mod of_export_run;
#[cfg(test)]
mod of_files;
#[cfg(test)]
mod of_floors;
#[cfg(test)]
mod of_hub;
#[cfg(test)]
mod of_limits;
#[cfg(test)]
mod of_load_run;
#[cfg(test)]
mod of_merges;
#[cfg(test)]
mod of_peers;
#[cfg(test)]
mod of_rest_site;
#[cfg(test)]
mod of_session_serve;
#[cfg(test)]
mod of_short_logs;
#[cfg(test)]
mod of_site_commands;
#[cfg(test)]
mod of_site_doors;
#[cfg(test)]
mod of_site_journal;
#[cfg(test)]
mod of_site_sync;
#[cfg(test)]
mod of_steps;
#[cfg(test)]
mod of_tardisd_main;
#[cfg(test)]
mod of_world_core;
#[cfg(test)]
mod rows;
#[cfg(test)]
mod sites;
#[cfg(test)]
mod talks;
#[cfg(test)]
mod world_rows;
