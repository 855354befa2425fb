//! Writers of a code and the fields behind it, for those fields that several requests, refusals and replies have.

ghost use Rattle.std.specs.Prelude.{◌≡◌, ◌+◌, ◌≤◌, ◌∷◌, ◌++◌, length};
ghost use Rattle.tardis_base.specs.Sizes.{longest_frame};
ghost use Rattle.wire_item.specs.Spellings.{id_spelling, key_spelling, u16_spelling, u32_spelling};

use item_bytes::{write_id, write_key, write_u16, write_u32};
use tardis_base::{Key, ReplyBuf, StateId};

pub fn write_code_with_u16(code: u8, number: u16, out: &mut ReplyBuf)
    requires { length out.old + 3 ≤ longest_frame }
    ensures { out.new ≡ out.old ++ code ∷ u16_spelling number }
{
    out.push_byte(code);
    write_u16(number, out);
}

pub fn write_code_with_u32(code: u8, number: u32, out: &mut ReplyBuf)
    requires { length out.old + 5 ≤ longest_frame }
    ensures { out.new ≡ out.old ++ code ∷ u32_spelling number }
{
    out.push_byte(code);
    write_u32(number, out);
}

pub fn write_code_with_id(code: u8, id: StateId, out: &mut ReplyBuf)
    requires { length out.old + 7 ≤ longest_frame }
    ensures { out.new ≡ out.old ++ code ∷ id_spelling id }
{
    out.push_byte(code);
    write_id(id, out);
}

pub fn write_code_with_two_ids(code: u8, first: StateId, second: StateId, out: &mut ReplyBuf)
    requires { length out.old + 13 ≤ longest_frame }
    ensures { out.new ≡ out.old ++ code ∷ (id_spelling first ++ id_spelling second) }
{
    write_code_with_id(code, first, out);
    write_id(second, out);
}

pub fn write_code_with_id_and_u32(code: u8, id: StateId, number: u32, out: &mut ReplyBuf)
    requires { length out.old + 11 ≤ longest_frame }
    ensures { out.new ≡ out.old ++ code ∷ (id_spelling id ++ u32_spelling number) }
{
    write_code_with_id(code, id, out);
    write_u32(number, out);
}

pub fn write_code_with_key(code: u8, key: &Key, out: &mut ReplyBuf)
    requires { length out.old + length (code ∷ key_spelling key.now) ≤ longest_frame }
    ensures { out.new ≡ out.old ++ code ∷ key_spelling key.now }
{
    out.push_byte(code);
    write_key(key, out);
}
