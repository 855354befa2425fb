//! Worked rows: what states export, and how exports are scripted. The program calls none of it.

ghost use Rattle.branch_export.specs.Rows.{OneKeyIsExported, RootIsEmpty, DeletionsAreNotExported, ExportsAreOfTheirState};
ghost use Rattle.branch_export.specs.Rows.{OtherBranchesAreNotExported, CollectedValuesAreExported, OneEntryIsScripted, EmptyExportIsScripted};

/// Exports of states, out of the definitions.
pub fn exports_are_as_told()
    ensures one_key { OneKeyIsExported }
    ensures root { RootIsEmpty }
    ensures deletions { DeletionsAreNotExported }
    ensures own_state { ExportsAreOfTheirState }
    ensures branches { OtherBranchesAreNotExported }
    ensures collected { CollectedValuesAreExported }
{}

/// Scripts of exports, out of the definitions.
pub fn scripts_are_as_told()
    ensures one { OneEntryIsScripted }
    ensures none { EmptyExportIsScripted }
{}
