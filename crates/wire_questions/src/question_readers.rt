//! Reading bytes that spell one question and nothing else.
//!
//! How questions are spelled is stated in `docs/FORMATS.md`. The cost grows with the number of bytes.

ghost use Rattle.std.specs.Prelude.{◌≡◌, ◌⊎◌, None, Some, Ok, Err, IfOk, IsErr, IsSome, IsTrue};
ghost use Rattle.tardis_base.specs.declared.faults.NoMemory.{NoMemory};
ghost use Rattle.wire_item.specs.Fronts.{front_of_code};
ghost use Rattle.wire_item.specs.Takings.{Makes};
ghost use Rattle.plain_questions.specs.Readings.{question_front, question_of, question_rows};
ghost use Rattle.plain_questions.specs.declared.question_codes.TheConstants.{RECORD, SESSIONS, SITE};
ghost use Rattle.plain_questions.specs.declared.questions.Question.{Question};
ghost use Rattle.wire_questions.specs.Memory.{takes_no_memory};

use crate::question_field_readers::{
    read_at, read_base, read_page, read_record, read_sessions, sure,
};
use item_bytes::{Reader, whole};
use plain_questions::{Question, question_codes};
use std::alloc::Global;
use tardis_base::{NoMemory, ReadFault};

/// The question that the bytes spell; None where they spell none. A question with no key, no prefix and no list takes no
/// memory.
pub fn read_question(alloc: Global, bytes: &[u8]) -> Result<Option<Question>, NoMemory>
    ensures asked { IfOk result (λ q. q ≡ question_of bytes.now) }
    ensures wanting { IsErr result → IsSome (question_of bytes.now) }
    ensures sure { (q : Question) → question_of bytes.now ≡ Some q → IsTrue (takes_no_memory q) → result ≡ Ok (Some q) }
{
    let mut reader = Reader::new(bytes);
    let taken = question(alloc, &mut reader);
    asked(whole(taken, reader.is_done()))
}

/// The question, where one is spelled.
fn asked(read: Result<Question, ReadFault>) -> Result<Option<Question>, NoMemory>
    ensures question { (q : Question) → read ≡ Ok q → result ≡ Ok (Some q) }
    ensures malformed { read ≡ Err ReadFault.Malformed → result ≡ Ok None }
    ensures wanting { read ≡ Err ReadFault.NoMemory → IsErr result }
{
    match read {
        Ok(question) => Ok(Some(question)),
        Err(ReadFault::Malformed) => Ok(None),
        Err(ReadFault::NoMemory) => Err(NoMemory),
    }
}

fn question(alloc: Global, reader: &mut Reader) -> Option<Result<Question, NoMemory>>
    ensures read { Makes question_front reader.old result reader.new }
    ensures sure { (q : Question) (e : NoMemory) → question_of reader.old ≡ Some q → IsTrue (takes_no_memory q) → result ≡ Some (Err e) → ⊥ }
{
    let code = reader.u8()?;
    fields(alloc, code, reader)
}

/// What stands behind the code.
fn fields(alloc: Global, code: u8, reader: &mut Reader) -> Option<Result<Question, NoMemory>>
    ensures read { Makes (front_of_code code question_rows) reader.old result reader.new }
    ensures sure { (e : NoMemory) → (code ≡ RECORD) ⊎ ((code ≡ SESSIONS) ⊎ (code ≡ SITE)) → result ≡ Some (Err e) → ⊥ }
{
    match code {
        question_codes::AT => read_at(alloc, reader),
        question_codes::KEYS => read_page(alloc, false, reader),
        question_codes::SCAN => read_page(alloc, true, reader),
        question_codes::RECORD => sure(read_record(reader)),
        question_codes::BASE => read_base(alloc, reader),
        question_codes::SESSIONS => sure(read_sessions(reader)),
        question_codes::SITE => Some(Ok(Question::Site)),
        _ => None,
    }
}
