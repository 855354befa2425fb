//! Stores that nobody can tell apart: laws, which the program doesn't call, and a check, which a program can make.
//!
//! A table of kept states says nothing of which states were collected, nor a store of what these wrote, so that each stands
//! for many histories. Two are twins where they have the same limits and say the same of the same states; slots, which are
//! places in one table alone, don't count.
#![tactic(auto)]

ghost use Rattle.twin_stores.specs.Laws.{TablesOfOneHistoryAreTwins, TwinTablesStandForTheSame, TablesOfOneHistoryStandForTheSame};
ghost use Rattle.twin_stores.specs.Laws.{StoresOfOneHistoryAreTwins, TwinStoresStandForTheSame, StoresOfOneHistoryStandForTheSame};

mod stores;
mod tables;

pub use stores::are_twins;
pub use tables::are_twin_tables;

/// Tables of the same limits that stand for one history are twins. This call does nothing, nor do those below.
pub fn tables_of_one_history_are_twins()
    ensures { TablesOfOneHistoryAreTwins }
{}

/// Twins that each stand for some history stand for the same histories.
pub fn twin_tables_stand_for_the_same()
    ensures { TwinTablesStandForTheSame }
{}

/// Tables that stand for one history stand for the same histories, whatever their limits.
pub fn tables_of_one_history_stand_for_the_same()
    ensures { TablesOfOneHistoryStandForTheSame }
{}

/// Stores of the same limits that stand for one history are twins.
pub fn stores_of_one_history_are_twins()
    ensures { StoresOfOneHistoryAreTwins }
{}

/// Twins that each stand for some history stand for the same histories.
pub fn twin_stores_stand_for_the_same()
    ensures { TwinStoresStandForTheSame }
{}

/// Stores that stand for one history stand for the same histories, whatever their limits.
pub fn stores_of_one_history_stand_for_the_same()
    ensures { StoresOfOneHistoryStandForTheSame }
{}
