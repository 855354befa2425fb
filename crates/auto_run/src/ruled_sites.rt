//! A site with rules.

ghost use Rattle.std.specs.Prelude.{◌≡◌};
ghost use Rattle.auto_run.specs.RuledCores.{StandsForSite};

use any_site::SiteMachine;
use rule_list::RuleList;
use std::marker::Model;
use stored_site::StoredSite;

/// A site, and the rules by which its leaves are merged. It is seen as both.
#[derive(Drop)]
pub struct RuledSite<A: StoredSite> {
    pub(crate) core: SiteMachine<A>,
    pub(crate) rules: RuleList,
}

impl<A: StoredSite> Model for RuledSite<A> {
    ghost use Rattle.auto_run.specs.RuledCores.{RuledCore, StandsForSite};

    ghost Value = { RuledCore A };

    ghost view = { λ r. record { core = r.core; rules = r.rules } };

    ghost invariant = { λ r. StandsForSite (A.stands r.core) };
}

impl<A: StoredSite> RuledSite<A> {
    pub fn new(core: A, rules: RuleList) -> RuledSite<A>
        requires { StandsForSite (A.stands core) }
        ensures { result ≡ record { core = core; rules = rules } }
    {
        RuledSite {
            core: SiteMachine { site: core },
            rules,
        }
    }
}
