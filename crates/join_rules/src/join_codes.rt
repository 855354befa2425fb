//! The codes of a request to join leaves and of its reply, as `docs/FORMATS.md` has them. No request, question or life has that code.

/// The request to join leaves, and the first byte of its reply.
pub const JOIN: u8 = 74;

/// The second byte of a reply: two leaves were joined.
pub const JOINED: u8 = 0;

/// There is one leaf, and nothing to join.
pub const ONE_LEAF: u8 = 1;

/// The leaves stay apart: the rules settle no two of those that are looked at, or the site has no room for the state that would
/// join them.
pub const LEFT: u8 = 2;

/// The text is no rules, or there is no patience before it.
pub const NO_RULES: u8 = 3;

/// The site leaves two leaves to others: the rules settle none that it may join with its patience, but two that others are to join.
pub const FOR_OTHERS: u8 = 4;
