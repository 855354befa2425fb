//! What a body asks, and of whom.

ghost use Rattle.std.specs.Prelude.{◌≡◌};
ghost use Rattle.frame_cut.specs.Events.{event_of};

/// The actor and the request of a body. A body of fewer than two bytes is the empty request of actor 0.
pub fn event(body: &[u8]) -> (u16, &[u8])
    ensures { (result.0, result.1.now) ≡ event_of body.now }
{
    match body {
        [high, low, request @ ..] => (u16::from_be_bytes([*high, *low]), request),
        _ => (0, &[]),
    }
}
