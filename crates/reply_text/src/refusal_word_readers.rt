//! Reading the words of refusals.
//!
//! How refusals are written in lines is stated in `docs/FORMATS.md`.

ghost use Rattle.std.specs.Prelude.{◌≡◌, drop};
ghost use Rattle.reply_text.specs.Answers.{IsRefusal};
ghost use Rattle.shell_text.specs.ReplyTexts.{id_text, refusal_text, refusal_text_rows, u16_text, u32_text, u64_text, u8_text};
ghost use Rattle.shell_text.specs.RequestTexts.{key_text};
ghost use Rattle.tardis_base.specs.declared.replies.Refusal.TheVariants.{Below};
ghost use Rattle.tardis_base.specs.declared.replies.Refusal.{Refusal};
ghost use Rattle.text_words.specs.Texts.{by_prefix};
ghost use Rattle.wire_item.specs.Fronts.{both, made, whole};

use shell_text::{alone, key_alone};
use std::alloc::Global;
use tardis_base::{Excess, ReadFault, Refusal};
use text_words::Words;

/// The refusal of which these are the words.
pub fn read_refusal(alloc: Global, words: &Words) -> Result<Refusal, ReadFault>
    ensures { IsRefusal (whole refusal_text words.now) result }
{
    if let Some(left) = words.behind(b"malformed ") {
        return sure(alone(Refusal::Malformed, &left));
    }
    if let Some(left) = words.behind(b"notopen ") {
        return sure(alone(Refusal::NotOpen, &left));
    }
    if let Some(left) = words.behind(b"alreadyopen ") {
        return sure(alone(Refusal::AlreadyOpen, &left));
    }
    if let Some(left) = words.behind(b"sessionsfull ") {
        return sure(sessions_full(&left));
    }
    read_txn_refusal(alloc, words)
}

/// One of the refusals of a transaction, or one whose name stands behind those.
fn read_txn_refusal(alloc: Global, words: &Words) -> Result<Refusal, ReadFault>
    ensures { IsRefusal (whole (by_prefix (drop 4 refusal_text_rows)) words.now) result }
{
    if let Some(left) = words.behind(b"txnopen ") {
        return sure(alone(Refusal::TxnOpen, &left));
    }
    if let Some(left) = words.behind(b"notxn ") {
        return sure(alone(Refusal::NoTxn, &left));
    }
    if let Some(left) = words.behind(b"wrongmode ") {
        return sure(alone(Refusal::WrongMode, &left));
    }
    read_limit_refusal(alloc, words)
}

/// One of the refusals of what there is too much of, or one whose name stands behind those.
fn read_limit_refusal(alloc: Global, words: &Words) -> Result<Refusal, ReadFault>
    ensures { IsRefusal (whole (by_prefix (drop 7 refusal_text_rows)) words.now) result }
{
    if let Some(left) = words.behind(b"toomany writes ") {
        return sure(too_many(Excess::WrittenKeys, &left));
    }
    if let Some(left) = words.behind(b"toomany reads ") {
        return sure(too_many(Excess::ReadKeys, &left));
    }
    if let Some(left) = words.behind(b"toomany states ") {
        return sure(too_many(Excess::MergedStates, &left));
    }
    read_state_refusal(alloc, words)
}

/// One of the refusals of a state, or one whose name stands behind those.
fn read_state_refusal(alloc: Global, words: &Words) -> Result<Refusal, ReadFault>
    ensures { IsRefusal (whole (by_prefix (drop 10 refusal_text_rows)) words.now) result }
{
    if let Some(left) = words.behind(b"unknown ") {
        return sure(unknown(&left));
    }
    if let Some(left) = words.behind(b"below ") {
        return sure(below(&left));
    }
    if let Some(left) = words.behind(b"comparable ") {
        return sure(comparable(&left));
    }
    if let Some(left) = words.behind(b"notread ") {
        return sure(not_read(&left));
    }
    read_conflict_refusal(alloc, words)
}

/// One of the refusals of conflicts and branches, or one whose name stands behind those.
fn read_conflict_refusal(alloc: Global, words: &Words) -> Result<Refusal, ReadFault>
    ensures { IsRefusal (whole (by_prefix (drop 14 refusal_text_rows)) words.now) result }
{
    if let Some(left) = words.behind(b"conflictkey ") {
        return read_conflict_key(alloc, &left);
    }
    if let Some(left) = words.behind(b"openconflict ") {
        return read_open_conflict(alloc, &left);
    }
    if let Some(left) = words.behind(b"branches nb ") {
        return sure(branches(4, &left));
    }
    if let Some(left) = words.behind(b"branches kb ") {
        return sure(branches(8, &left));
    }
    sure(read_ceiling_refusal(words))
}

/// One of the refusals of ceilings and floors, or one whose name stands behind those.
fn read_ceiling_refusal(words: &Words) -> Option<Refusal>
    ensures { result ≡ whole (by_prefix (drop 18 refusal_text_rows)) words.now }
{
    if let Some(left) = words.behind(b"ceilingback ") {
        return ceiling_back(&left);
    }
    if let Some(left) = words.behind(b"floorback ") {
        return floor_back(&left);
    }
    if let Some(left) = words.behind(b"held ") {
        return held(&left);
    }
    if let Some(left) = words.behind(b"collected ") {
        return collected(&left);
    }
    read_full_refusal(words)
}

/// One of the refusals where no more fits, or one whose name stands behind those.
fn read_full_refusal(words: &Words) -> Option<Refusal>
    ensures { result ≡ whole (by_prefix (drop 22 refusal_text_rows)) words.now }
{
    if let Some(left) = words.behind(b"full ") {
        return full(&left);
    }
    if let Some(left) = words.behind(b"pathfull ") {
        return path_full(&left);
    }
    if let Some(left) = words.behind(b"seqend ") {
        return alone(Refusal::SeqEnd, &left);
    }
    read_site_refusal(words)
}

/// One of the refusals of sites and their items, or one whose name stands behind those.
fn read_site_refusal(words: &Words) -> Option<Refusal>
    ensures { result ≡ whole (by_prefix (drop 25 refusal_text_rows)) words.now }
{
    if let Some(left) = words.behind(b"badsite ") {
        return bad_site(&left);
    }
    if let Some(left) = words.behind(b"closedparent ") {
        return closed_parent(&left);
    }
    if let Some(left) = words.behind(b"ownitem ") {
        return own_item(&left);
    }
    read_last_refusal(words)
}

/// One of the refusals whose names stand behind all of those.
fn read_last_refusal(words: &Words) -> Option<Refusal>
    ensures { result ≡ whole (by_prefix (drop 28 refusal_text_rows)) words.now }
{
    if let Some(left) = words.behind(b"trailfull ") {
        return trail_full(&left);
    }
    if let Some(left) = words.behind(b"unsupported ") {
        return unsupported(&left);
    }
    if let Some(left) = words.behind(b"nosuchitem ") {
        return no_such_item(&left);
    }
    if let Some(left) = words.behind(b"bagfull ") {
        return bag_full(&left);
    }
    None
}

/// The answer for a refusal that takes no memory.
fn sure(read: Option<Refusal>) -> Result<Refusal, ReadFault>
    ensures { IsRefusal read result }
{
    match read {
        Some(refusal) => Ok(refusal),
        None => Err(ReadFault::Malformed),
    }
}

fn read_conflict_key(alloc: Global, words: &Words) -> Result<Refusal, ReadFault>
    ensures { IsRefusal (whole (made Refusal.ConflictKey key_text) words.now) result }
{
    match key_alone(alloc, words) {
        Ok(key) => Ok(Refusal::ConflictKey { key }),
        Err(fault) => Err(fault),
    }
}

fn read_open_conflict(alloc: Global, words: &Words) -> Result<Refusal, ReadFault>
    ensures { IsRefusal (whole (made Refusal.OpenConflict key_text) words.now) result }
{
    match key_alone(alloc, words) {
        Ok(key) => Ok(Refusal::OpenConflict { key }),
        Err(fault) => Err(fault),
    }
}

fn sessions_full(words: &Words) -> Option<Refusal>
    ensures { result ≡ whole (made Refusal.SessionsFull u16_text) words.now }
{
    let (n, left) = words.u16(b' ')?;
    alone(Refusal::SessionsFull { n }, &left)
}

fn too_many(what: Excess, words: &Words) -> Option<Refusal>
    ensures { result ≡ whole (made (λ n. Refusal.TooMany what n) u32_text) words.now }
{
    let (n, left) = words.u32(b' ')?;
    alone(Refusal::TooMany { what, n }, &left)
}

fn unknown(words: &Words) -> Option<Refusal>
    ensures { result ≡ whole (made Refusal.Unknown id_text) words.now }
{
    let (state, left) = words.id(b' ')?;
    alone(Refusal::Unknown { state }, &left)
}

fn below(words: &Words) -> Option<Refusal>
    ensures { result ≡ whole (made (λ p. Below p.0 p.1) (both id_text id_text)) words.now }
{
    let (state, left) = words.id(b' ')?;
    let (ceiling, left) = left.id(b' ')?;
    alone(Refusal::Below { state, ceiling }, &left)
}

fn comparable(words: &Words) -> Option<Refusal>
    ensures { result ≡ whole (made (λ p. Refusal.Comparable p.0 p.1) (both id_text id_text)) words.now }
{
    let (a, left) = words.id(b' ')?;
    let (b, left) = left.id(b' ')?;
    alone(Refusal::Comparable { a, b }, &left)
}

fn not_read(words: &Words) -> Option<Refusal>
    ensures { result ≡ whole (made Refusal.NotRead id_text) words.now }
{
    let (state, left) = words.id(b' ')?;
    alone(Refusal::NotRead { state }, &left)
}

fn branches(constraint: u8, words: &Words) -> Option<Refusal>
    ensures { result ≡ whole (made (λ p. Refusal.Branches constraint p.0 p.1) (both id_text u32_text)) words.now }
{
    let (state, left) = words.id(b' ')?;
    let (children, left) = left.u32(b' ')?;
    alone(
        Refusal::Branches {
            constraint,
            state,
            children,
        },
        &left,
    )
}

fn ceiling_back(words: &Words) -> Option<Refusal>
    ensures { result ≡ whole (made Refusal.CeilingBack id_text) words.now }
{
    let (ceiling, left) = words.id(b' ')?;
    alone(Refusal::CeilingBack { ceiling }, &left)
}

fn floor_back(words: &Words) -> Option<Refusal>
    ensures { result ≡ whole (made Refusal.FloorBack id_text) words.now }
{
    let (floor, left) = words.id(b' ')?;
    alone(Refusal::FloorBack { floor }, &left)
}

fn held(words: &Words) -> Option<Refusal>
    ensures { result ≡ whole (made (λ p. Refusal.Held p.0 p.1) (both u16_text id_text)) words.now }
{
    let (session, left) = words.u16(b' ')?;
    let (ceiling, left) = left.id(b' ')?;
    alone(Refusal::Held { session, ceiling }, &left)
}

fn collected(words: &Words) -> Option<Refusal>
    ensures { result ≡ whole (made Refusal.Collected id_text) words.now }
{
    let (state, left) = words.id(b' ')?;
    alone(Refusal::Collected { state }, &left)
}

fn full(words: &Words) -> Option<Refusal>
    ensures { result ≡ whole (made Refusal.Full u32_text) words.now }
{
    let (kept, left) = words.u32(b' ')?;
    alone(Refusal::Full { kept }, &left)
}

fn path_full(words: &Words) -> Option<Refusal>
    ensures { result ≡ whole (made (λ p. Refusal.PathFull p.0 p.1) (both id_text u32_text)) words.now }
{
    let (state, left) = words.id(b' ')?;
    let (pairs, left) = left.u32(b' ')?;
    alone(Refusal::PathFull { state, pairs }, &left)
}

fn bad_site(words: &Words) -> Option<Refusal>
    ensures { result ≡ whole (made Refusal.BadSite u16_text) words.now }
{
    let (site, left) = words.u16(b' ')?;
    alone(Refusal::BadSite { site }, &left)
}

fn closed_parent(words: &Words) -> Option<Refusal>
    ensures { result ≡ whole (made Refusal.ClosedParent id_text) words.now }
{
    let (state, left) = words.id(b' ')?;
    alone(Refusal::ClosedParent { state }, &left)
}

fn own_item(words: &Words) -> Option<Refusal>
    ensures { result ≡ whole (made (λ p. Refusal.OwnItem p.0 p.1) (both u16_text u32_text)) words.now }
{
    let (site, left) = words.u16(b' ')?;
    let (number, left) = left.u32(b' ')?;
    alone(Refusal::OwnItem { site, number }, &left)
}

fn trail_full(words: &Words) -> Option<Refusal>
    ensures { result ≡ whole (made Refusal.TrailFull u64_text) words.now }
{
    let (bytes, left) = words.u64(b' ')?;
    alone(Refusal::TrailFull { bytes }, &left)
}

fn unsupported(words: &Words) -> Option<Refusal>
    ensures { result ≡ whole (made Refusal.Unsupported u8_text) words.now }
{
    let (op, left) = words.u8(b' ')?;
    alone(Refusal::Unsupported { op }, &left)
}

fn no_such_item(words: &Words) -> Option<Refusal>
    ensures { result ≡ whole (made Refusal.NoSuchItem u32_text) words.now }
{
    let (batches, left) = words.u32(b' ')?;
    alone(Refusal::NoSuchItem { batches }, &left)
}

fn bag_full(words: &Words) -> Option<Refusal>
    ensures { result ≡ whole (made Refusal.BagFull u32_text) words.now }
{
    let (batches, left) = words.u32(b' ')?;
    alone(Refusal::BagFull { batches }, &left)
}
