//! Rules, and lists of them.

ghost use Rattle.std.specs.Prelude.{◌≡◌};

use std::marker::Model;
use tardis_base::ByteList;

/// How two branches' writes to one key are joined.
#[derive(Clone, Copy)]
pub enum Rule {
    /// The later write stands.
    Last,
    /// Numbers, to which both branches added.
    Count,
    /// Sets of items, of which the union stands.
    Set,
    /// Sets of items, to which both branches added and from which both removed.
    Set3,
    /// Nothing joins them.
    Refuse,
}

/// A rule for the keys that begin with a prefix.
#[derive(Drop)]
pub struct PrefixRule {
    /// 0 to 64 bytes.
    pub prefix: ByteList,
    pub rule: Rule,
}

/// 1 to 16 rules, in the order of the text that wrote them. No two have one prefix.
#[derive(Drop)]
pub struct RuleList {
    pub(crate) rules: Vec<PrefixRule>,
}

impl Model for RuleList {
    ghost use Rattle.std.specs.Prelude.{List};
    ghost use Rattle.rule_list.specs.declared.rules.PrefixRule.{PrefixRule};

    ghost Value = { List PrefixRule };

    ghost view = { λ l. l.rules.items };
}

impl RuleList {
    pub fn as_slice(&self) -> &[PrefixRule]
        ensures { result.now ≡ self.now }
    {
        self.rules.as_slice()
    }
}

/// Why a text was not read as rules.
#[derive(Clone, Copy)]
pub enum RulesFault {
    /// It doesn't have the form.
    Form,
    NoMemory,
}
