//! Whether a transaction may end where it would land. The rule is stated in `docs/MODEL.md`.
#![tactic(auto)]

ghost use Rattle.std.specs.Prelude.{◌≡◌, Some, List, length, min, IsTrue};
ghost use Rattle.tardis_base.specs.declared.ids.StateId.{StateId};
ghost use Rattle.tardis_base.specs.declared.records.Record.{Record};
ghost use Rattle.plain_dag.specs.States.{children};
ghost use Rattle.plain_dag.specs.Landing.{broken};
ghost use Rattle.state_dag.specs.Table.{id_at, is_slot};
ghost use Rattle.state_dag.specs.Stands.{Stands};
ghost use Rattle.end_rule.specs.Checks.{CheckedAs};

use bitflags::Flags;
use state_dag::StateDag;
use std::error::Error;
use std::fmt;
use tardis_base::{EndFlags, Slot, StateId};

/// Why a transaction may not end where it would land: which constraint is broken, as its bit of `EndFlags`, and how many
/// children the landing has.
#[derive(Clone, Copy, Debug)]
pub struct Branches {
    pub constraint: u8,
    pub state: StateId,
    pub children: u32,
}

impl fmt::Display for Branches {
    fn fmt<W: fmt::Write>(&self, f: &mut fmt::Formatter<W>) -> fmt::Result {
        let Branches {
            constraint,
            state,
            children,
        } = *self;
        let name = if constraint == EndFlags::NB.0 {
            "NB"
        } else {
            "KB"
        };
        write!(
            f,
            "state {state} has {children} children, too many for the end constraint {name}"
        )
    }
}

impl Error for Branches {}

/// Whether the end constraints let a transaction end at the state of this slot.
///
/// `k` is looked at with the flag KB alone. The children are all counted, collected ones too, and told as far as 32 bits
/// tell. It takes constant time.
pub fn check(dag: &StateDag, landing: Slot, flags: EndFlags, k: u16) -> Result<(), Branches>
    requires { IsTrue (is_slot dag.now landing) }
    ensures { (rs : List Record) (ks : List StateId) → Stands dag.now rs ks → (x : StateId) → id_at dag.now landing ≡ Some x
        → CheckedAs x (broken flags k (length (children rs x))) (min (length (children rs x)) 4294967295) result }
{
    let children = dag.children(landing).len();
    match broken_by(flags, k, children) {
        None => Ok(()),
        Some(constraint) => Err(Branches {
            constraint,
            state: dag.id_of(landing),
            children: counted(children),
        }),
    }
}

/// The constraint that so many children break, as its bit.
fn broken_by(flags: EndFlags, k: u16, children: usize) -> Option<u8>
    ensures { result ≡ broken flags k children }
{
    if flags.contains(EndFlags::NB) && children >= 1 {
        return Some(EndFlags::NB.0);
    }
    if flags.contains(EndFlags::KB) && children >= k as usize {
        return Some(EndFlags::KB.0);
    }
    None
}

/// The number, or the greatest that fits.
fn counted(number: usize) -> u32
    ensures { result ≡ min number 4294967295 }
{
    number.min(u32::MAX as usize) as u32
}
