//! The site as a machine that can be told by a shorter history.

use crate::RestSite;
use rest_machine::Shortening;
use shorter_history::{Plan, plan_of};
use tardis_base::NoMemory;
use twin_sites::{last_commits_stay, rest_alike, twins_stand_with_sessions};

impl Shortening for RestSite {
    type Plan = Plan;

    fn reopened(&self) -> Result<RestSite, NoMemory> {
        RestSite::new(
            self.alloc,
            self.keys,
            *self.core.store().dag().limits(),
            self.core.book().own_site(),
        )
    }

    fn plan(&self) -> Result<Plan, NoMemory> {
        plan_of(self.alloc, &self.core, &self.lives, &self.past)
    }

    fn planned(plan: &Plan) -> usize {
        plan.len()
    }

    fn put_planned(&self, plan: &Plan, number: usize, body: &mut Vec<u8>) {
        plan.put(&self.core, &self.lives, number, body);
    }

    fn rests_as(&self, other: &RestSite) -> bool {
        twins_stand_with_sessions();
        if self.is_loading() {
            return false;
        }
        if other.is_loading() {
            return false;
        }
        if !rest_alike(&self.core, &other.core) {
            return false;
        }
        if !last_commits_stay(&self.core) {
            return false;
        }
        self.lives.are_same(&other.lives)
    }
}
