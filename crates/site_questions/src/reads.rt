//! What is read of a key at a state.

ghost use Rattle.std.specs.Prelude.{◌≡◌, List, Some, IsTrue, IfOk};
ghost use Rattle.tardis_base.specs.declared.ids.StateId.{StateId};
ghost use Rattle.tardis_base.specs.declared.records.Record.{Record};
ghost use Rattle.plain_dag.specs.Writers.{read};
ghost use Rattle.state_dag.specs.Table.{id_at, is_slot};
ghost use Rattle.record_store.specs.Stands.{StoreStands};
ghost use Rattle.plain_site.specs.Site.{Site};
ghost use Rattle.plain_questions.specs.declared.questions.Question.{Question};
ghost use Rattle.plain_questions.specs.declared.questions.Answered.{Answered};
ghost use Rattle.plain_questions.specs.Answer.{answer};

use crate::denials::kept_slot;
use crate::found::version_of;
use plain_questions::Answered;
use record_store::RecordStore;
use tardis_base::{Key, NoMemory, Slot, StateId};

/// The latest writer of the key at the state and what that one wrote, or nothing.
pub fn tell_read(store: &RecordStore, state: StateId, key: &Key) -> Result<Answered, NoMemory>
    ensures { (site : Site) → StoreStands store.now site.dag site.collected → IfOk result (λ told. told ≡ answer site (Question.At state key.now)) }
{
    match kept_slot(store.dag(), state) {
        Ok(slot) => read_of(store, slot, key),
        Err(why) => Ok(Answered::Refused { why }),
    }
}

/// The same at the state of this slot.
fn read_of(store: &RecordStore, slot: Slot, key: &Key) -> Result<Answered, NoMemory>
    requires { IsTrue (is_slot store.now.table slot) }
    ensures { (rs : List Record) (ks : List StateId) → StoreStands store.now rs ks → (x : StateId) → id_at store.now.table slot ≡ Some x
        → IfOk result (λ told. told ≡ Answered.Read (read rs key.now x)) }
{
    Ok(Answered::Read {
        found: version_of(store.read_at(slot, key))?,
    })
}
