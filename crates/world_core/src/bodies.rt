//! What a world is asked, in bytes.

ghost use Rattle.std.specs.Prelude.{◌≡◌, ◌≤◌, length, drop, option_and_then};
ghost use Rattle.wire_item.specs.Fronts.{whole};
ghost use Rattle.plain_world.specs.Bodies.{body_of, step_front, carry_front};
ghost use Rattle.world_core.specs.Asked.{body_asked};

use item_bytes::Reader;

/// What a body asks: a step at a site, whose request is in bytes; or the carrying of an item of a batch to a site.
#[derive(Clone, Copy)]
pub(crate) enum Asked<'a> {
    Step {
        site: u16,
        actor: u16,
        request: &'a [u8],
    },
    Carry {
        to: u16,
        batch: u32,
        item: u32,
    },
}

/// What the body asks. A body that is neither a step nor a carry asks nothing.
pub(crate) fn read_body(body: &[u8]) -> Option<Asked<'_>>
    ensures { body_of body.now ≡ option_and_then body_asked result }
{
    match body {
        [1, fields @ ..] => step_asked(fields),
        [2, fields @ ..] => carry_asked(fields),
        _ => None,
    }
}

/// The step that stands behind its code.
fn step_asked(fields: &[u8]) -> Option<Asked<'_>>
    ensures { whole step_front fields.now ≡ option_and_then body_asked result }
{
    let mut reader = Reader::new(fields);
    let Some(site) = reader.u16() else {
        return None;
    };
    let Some(actor) = reader.u16() else {
        return None;
    };
    let request = behind_header(fields);
    Some(Asked::Step {
        site,
        actor,
        request,
    })
}

/// What stands behind a site and an actor.
fn behind_header(fields: &[u8]) -> &[u8]
    requires { 4 ≤ length fields.now }
    ensures { result.now ≡ drop 4 fields.now }
{
    &fields[4..]
}

/// The carry that stands behind its code.
fn carry_asked(fields: &[u8]) -> Option<Asked<'static>>
    ensures { whole carry_front fields.now ≡ option_and_then body_asked result }
{
    let mut reader = Reader::new(fields);
    let Some(to) = reader.u16() else {
        return None;
    };
    let Some(batch) = reader.u32() else {
        return None;
    };
    let Some(item) = reader.u32() else {
        return None;
    };
    if reader.is_done() {
        Some(Asked::Carry { to, batch, item })
    } else {
        None
    }
}
