//! The codes of questions: the first byte of each, as `docs/FORMATS.md` has them. Those of requests are below 64.

pub const AT: u8 = 64;

pub const KEYS: u8 = 65;

pub const SCAN: u8 = 66;

pub const RECORD: u8 = 67;

pub const BASE: u8 = 68;

pub const SESSIONS: u8 = 69;

pub const SITE: u8 = 70;
