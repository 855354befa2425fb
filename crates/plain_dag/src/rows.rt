//! Rows of states, worked.

ghost use Rattle.plain_dag.specs.Rows.{TwoBelowTheRoot, TwoAreCollected};

/// Two states of a site arrive in a row below the root: the records, and which states are collected then.
pub fn a_row_of_two_lengthens_the_root()
    ensures records { TwoBelowTheRoot }
    ensures collected { TwoAreCollected }
{}
