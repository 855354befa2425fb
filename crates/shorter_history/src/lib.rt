//! Which things tell a checkpoint of a site, so that another site that takes them back rests as this one does.
//!
//! How the things are chosen is stated in `docs/MODEL.md`, 'A shorter history'. Nothing is owed of a plan: whoever makes one tries it
//! before it is used.
#![tactic(auto)]

ghost use Rattle.std.specs.Prelude.{◌≤◌, ◌+◌, vec_len, vec_capacity};
ghost use Rattle.rest_machine.specs.Rests.{most_lasting};

mod builders;
mod loads;
mod past;
mod reading;
mod spelling;
mod steps;
mod told;
mod versions;

use builders::checkpoint_of;
pub use past::Past;
use rest_machine::MAX_LASTING;
use session_core::SiteCore;
use site_lives::Lives;
use spelling::{put_end, put_life, put_step};
use std::alloc::Global;
use steps::Telling;
use tardis_base::{MAX_SITES, NoMemory};
use versions::VersionPlace;

/// The things of a checkpoint, in order: the lives that are known, the parts, and the end; none, where none was found.
#[derive(Drop)]
pub struct Plan {
    is_found: bool,
    lives: Vec<u16>,
    telling: Telling,
    versions: Vec<VersionPlace>,
}

/// The things of a checkpoint of the site, where this is its past; none where it isn't.
///
/// The memory and the cost grow with the states of the past, and their parents, and with the versions that are read.
pub fn plan_of(
    alloc: Global,
    core: &SiteCore,
    lives: &Lives,
    past: &Past,
) -> Result<Plan, NoMemory> {
    let mut known = Vec::new(alloc);
    match checkpoint_of(alloc, core, past)? {
        Some((checkpoint, versions)) => {
            gather_lives(core.book().own_site(), lives, &mut known)?;
            Ok(Plan {
                is_found: true,
                lives: known,
                telling: checkpoint.telling,
                versions,
            })
        },
        None => Ok(Plan {
            is_found: false,
            lives: known,
            telling: Telling::new(alloc),
            versions: Vec::new(alloc),
        }),
    }
}

/// The sites whose lives are known, the own one first.
fn gather_lives(own: u16, lives: &Lives, known: &mut Vec<u16>) -> Result<(), NoMemory> {
    gather_life(own, lives, known)?;
    for site in 1..MAX_SITES + 1 {
        if site != own {
            gather_life(site, lives, known)?;
        }
    }
    Ok(())
}

fn gather_life(site: u16, lives: &Lives, known: &mut Vec<u16>) -> Result<(), NoMemory> {
    if lives.of(site).is_some() {
        known.push(site)?;
    }
    Ok(())
}

impl Plan {
    /// How many things there are.
    pub fn len(&self) -> usize {
        if !self.is_found {
            return 0;
        }
        self.lives
            .len()
            .saturating_add(self.telling.len())
            .saturating_add(1)
    }

    /// Puts the thing of this number, from 0, behind the bytes of `body`, in room that is there; nothing, where the plan has none of
    /// this number, or isn't one of the site as it is now.
    ///
    /// It takes no memory.
    pub fn put(&self, core: &SiteCore, lives: &Lives, number: usize, body: &mut Vec<u8>)
        requires room { vec_len body.old + most_lasting ≤ vec_capacity body.old }
        ensures few { vec_len body.new ≤ vec_len body.old + most_lasting }
        ensures capacity { vec_capacity body.old ≤ vec_capacity body.new }
    {
        let limit = body.len() + MAX_LASTING;
        if let Some(site) = self.lives.get(number) {
            return put_life(lives, *site, limit, body);
        }
        let part = number.saturating_sub(self.lives.len());
        match self.telling.step(part) {
            Some(step) => put_step(
                core,
                &self.telling,
                self.versions.as_slice(),
                step,
                limit,
                body,
            ),
            None if part == self.telling.len() => put_end(core, limit, body),
            None => {},
        }
    }
}
