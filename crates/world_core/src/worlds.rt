//! Several sites, and the bag of the batches that they gave.

ghost use Rattle.std.specs.Prelude.{◌≡◌, ◌+◌, ◌≤◌, ◌<◌, ◌⊎◌, ◌++◌, ◌∷◌, [], ℕ, None, true, false, length, IsTrue, IsOk, IfOk, IfSome, OnOk};
ghost use Rattle.std.specs.Option.{option_map_or};
ghost use Rattle.tardis_base.specs.Valid.{are_limits};
ghost use Rattle.wire_talk.specs.RequestReadings.{request_of};
ghost use Rattle.plain_site.specs.Site.{opening};
ghost use Rattle.plain_site.specs.Step.{is_sure};
ghost use Rattle.plain_world.specs.Worlds.{World as Plain, opening_sites, opening_world, site_at, world_limits};
ghost use Rattle.plain_world.specs.Bodies.{body_of, is_sure_body};
ghost use Rattle.plain_world.specs.Steps.{carry_to, step_over_body};
ghost use Rattle.world_core.specs.Bags.{IsBag};
ghost use Rattle.world_core.specs.Asked.{step_over_bytes_at};
ghost use Rattle.world_core.specs.Held.{AllStand, WorldStands};
ghost use Rattle.world_core.specs.Gives.{WorldGives};

use crate::bags::{gather, kept_at, refuse, write_deliver};
use crate::bodies::{Asked, read_body};
use any_site::AnySite;
use plain_site::replies::replies_fit_a_frame;
use std::alloc::Global;
use std::hash::RandomState;
use std::marker::Model;
use talk_bytes::read_request;
use tardis_base::{
    Batch, Limits, ListOf, MAX_TRAIL, NoMemory, ReadFault, Refusal, ReplyBuf, USUAL_PATH,
    USUAL_SESSIONS,
};
use wire_talk::talk_has_one_spelling;

/// Sites 1 to M, and the bag: all batches that they gave, in order.
#[derive(Drop)]
pub struct World<A: AnySite> {
    alloc: Global,
    sites: Vec<A>,
    bag: ListOf<Batch>,
    deliver: ReplyBuf,
}

impl<A: AnySite> Model for World<A> {
    ghost use Rattle.world_core.specs.Bags.{IsBag};
    ghost use Rattle.world_core.specs.Held.{Held};

    ghost Value = { Held A };

    ghost view = { λ w. record { sites = w.sites.items; bag = w.bag } };

    ghost invariant = { λ w. IsBag w.bag };
}

impl<A: AnySite> World<A> {
    /// So many sites, each as it opens, and an empty bag. The sites find their keys by hashing with this seed.
    pub fn new(alloc: Global, keys: RandomState, sites: u16) -> Result<World<A>, NoMemory>
        requires first { 1 ≤ sites }
        requires last { sites ≤ 16 }
        ensures { IfOk result (λ held. WorldStands A.stands held (opening_world (world_limits sites))) }
    {
        let deliver = ReplyBuf::new(alloc)?;
        let open = open_sites(alloc, keys, sites)?;
        Ok(World {
            alloc,
            sites: open,
            bag: ListOf::new(alloc),
            deliver,
        })
    }

    /// Answers a body: a step at a site, or the carrying of an item to a site. The reply goes into `out`, whose bytes from
    /// before are gone. With no memory the world is as before, and `out` is empty.
    ///
    /// A body that is neither is refused (Malformed).
    pub fn answer(&mut self, body: &[u8], out: &mut ReplyBuf) -> Result<(), NoMemory>
        ensures answer { (world : Plain) → WorldStands A.stands self.old world
            → WorldGives (WorldStands A.stands self.new) (step_over_body world body.now) world result out.new }
        ensures sure { (world : Plain) → WorldStands A.stands self.old world → option_map_or is_sure_body (body_of body.now) false ≡ true → IsOk result }
    {
        match read_body(body) {
            Some(
                Asked::Step {
                    site,
                    actor,
                    request,
                },
            ) => self.step(site, actor, request, out),
            Some(Asked::Carry { to, batch, item }) => self.carry(to, batch, item, out),
            None => {
                refuse(Refusal::Malformed, out);
                Ok(())
            }
        }
    }

    /// Answers a request of an actor at the site with this number. A batch that the site gives joins the bag.
    ///
    /// Refused where the bytes spell no request (Malformed), where there is no such site (BadSite), and where a batch would join
    /// 1,024 others (BagFull). The cost is the site's, and for a batch that of reading it once.
    pub fn step(
        &mut self,
        site: u16,
        actor: u16,
        request: &[u8],
        out: &mut ReplyBuf,
    ) -> Result<(), NoMemory>
        ensures answer { (world : Plain) → WorldStands A.stands self.old world
            → WorldGives (WorldStands A.stands self.new) (step_over_bytes_at world site actor request.now) world result out.new }
        ensures sure { (world : Plain) → WorldStands A.stands self.old world → option_map_or is_sure (request_of request.now) false ≡ true → IsOk result }
    {
        match self.place_of(site) {
            Some(place) => {
                let sites = self.sites.as_mut_slice();
                act_at(self.alloc, sites, &mut self.bag, place, actor, request, out)
            }
            None => refuse_site(self.alloc, site, request, out),
        }
    }

    /// Delivers an item of a batch at the site with this number, as actor 0. Batches are numbered from 0, and so are the items
    /// of each, its records before its consents.
    ///
    /// Refused where there is no such site (BadSite), and where there is no such item, with the number of batches (NoSuchItem).
    pub fn carry(
        &mut self,
        to: u16,
        batch: u32,
        item: u32,
        out: &mut ReplyBuf,
    ) -> Result<(), NoMemory>
        ensures { (world : Plain) → WorldStands A.stands self.old world
            → WorldGives (WorldStands A.stands self.new) (carry_to world to batch item) world result out.new }
    {
        match self.place_of(to) {
            Some(place) => {
                let sites = self.sites.as_mut_slice();
                let deliver = &mut self.deliver;
                carry_at(
                    self.alloc,
                    sites,
                    &mut self.bag,
                    deliver,
                    place,
                    batch,
                    item,
                    out,
                )
            }
            None => {
                refuse(Refusal::BadSite { site: to }, out);
                Ok(())
            }
        }
    }

    /// The place of the site with this number, if there is one.
    fn place_of(&self, site: u16) -> Option<usize>
        ensures there { IfSome result (λ place. (place + 1 ≡ site) × (place < length self.now.sites)) }
        ensures none { result ≡ None → (site ≡ 0) ⊎ (length self.now.sites < site) }
    {
        let number = usize::from(site);
        if 1 <= number && number <= self.sites.len() {
            Some(number - 1)
        } else {
            None
        }
    }
}

/// The limits of each site where there are so many: 1,024 kept states, and else those of the program.
fn site_limits(sites: u16) -> Limits
    requires first { 1 ≤ sites }
    requires last { sites ≤ 16 }
    ensures is { result ≡ world_limits sites }
    ensures valid { IsTrue (are_limits result) }
{
    Limits {
        sites,
        max_kept: 1_024,
        max_path: USUAL_PATH,
        max_sessions: USUAL_SESSIONS,
        max_trail: MAX_TRAIL,
    }
}

/// The site of this number, of so many, as it opens.
fn open_site<A: AnySite>(
    alloc: Global,
    keys: RandomState,
    sites: u16,
    own: u16,
) -> Result<A, NoMemory>
    requires first { 1 ≤ own }
    requires last { own ≤ sites }
    requires few { sites ≤ 16 }
    ensures { IfOk result (λ core. A.stands core (opening (world_limits sites) own)) }
{
    A::open(alloc, keys, site_limits(sites), own)
}

/// So many sites that open, in the order of their numbers.
fn open_sites<A: AnySite>(alloc: Global, keys: RandomState, sites: u16) -> Result<Vec<A>, NoMemory>
    requires first { 1 ≤ sites }
    requires last { sites ≤ 16 }
    ensures { IfOk result (λ made. AllStand A.stands made.items (opening_sites (world_limits sites) 1 sites)) }
{
    let mut made = Vec::new(alloc);
    let mut count = 0;
    while count < sites {
        open_next(alloc, keys, sites, count, &mut made)?;
        count += 1;
    }
    Ok(made)
}

/// Opens one more site behind so many.
fn open_next<A: AnySite>(
    alloc: Global,
    keys: RandomState,
    sites: u16,
    count: u16,
    made: &mut Vec<A>,
) -> Result<(), NoMemory>
    requires next { count < sites }
    requires few { sites ≤ 16 }
    ensures { AllStand A.stands made.old.items (opening_sites (world_limits sites) 1 count)
        → OnOk result (AllStand A.stands made.new.items (opening_sites (world_limits sites) 1 (count + 1))) }
{
    let site = open_site(alloc, keys, sites, count + 1)?;
    put(made, site)
}

/// Puts the item at the end. With no memory it is dropped.
fn put<T: Drop>(items: &mut Vec<T>, item: T) -> Result<(), NoMemory>
    ensures { OnOk result (items.new.items ≡ items.old.items ++ item ∷ []) }
{
    items.push(item)?;
    Ok(())
}

/// A step at a site that is there: what it gives joins the bag.
fn act_at<A: AnySite>(
    alloc: Global,
    sites: &mut [A],
    bag: &mut ListOf<Batch>,
    place: usize,
    actor: u16,
    request: &[u8],
    out: &mut ReplyBuf,
) -> Result<(), NoMemory>
    requires { place < length sites.old }
    ensures answer { (world : Plain) → WorldStands A.stands (record { sites = sites.old; bag = bag.old }) world
        → WorldGives (WorldStands A.stands (record { sites = sites.new; bag = bag.new })) (step_over_bytes_at world (place + 1) actor request.now) world result out.new }
    ensures sure { (world : Plain) → WorldStands A.stands (record { sites = sites.old; bag = bag.old }) world
        → option_map_or is_sure (request_of request.now) false ≡ true → IsOk result }
    ensures bag { IsBag bag.old → IsBag bag.new }
{
    replies_fit_a_frame();
    match sites[place].act(actor, request, out) {
        Ok(()) => gather(alloc, bag, out),
        Err(NoMemory) => Err(NoMemory),
    }
}

/// A carry to a site that is there. The request to deliver the item is written into a buffer of its own.
fn carry_at<A: AnySite>(
    alloc: Global,
    sites: &mut [A],
    bag: &mut ListOf<Batch>,
    deliver: &mut ReplyBuf,
    place: usize,
    batch: u32,
    item: u32,
    out: &mut ReplyBuf,
) -> Result<(), NoMemory>
    requires place { place < length sites.old }
    requires bag { IsBag bag.old }
    ensures answer { (world : Plain) → WorldStands A.stands (record { sites = sites.old; bag = bag.old }) world
        → WorldGives (WorldStands A.stands (record { sites = sites.new; bag = bag.new })) (carry_to world (place + 1) batch item) world result out.new }
    ensures bag { IsBag bag.new }
{
    talk_has_one_spelling();
    match kept_at(bag, batch, item) {
        Some(kept) => write_deliver(&kept, deliver),
        None => {
            let batches = bag.len() as u32;
            refuse(Refusal::NoSuchItem { batches }, out);
            return Ok(());
        }
    }
    act_at(alloc, sites, bag, place, 0, deliver.bytes(), out)
}

/// Refuses a request to a site that isn't there: as malformed, where it is none.
fn refuse_site(alloc: Global, site: u16, request: &[u8], out: &mut ReplyBuf) -> Result<(), NoMemory>
    ensures answer { (world : Plain) (actor : ℕ) → site_at world.sites site ≡ None
        → WorldGives (λ new. new ≡ world) (step_over_bytes_at world site actor request.now) world result out.new }
    ensures sure { option_map_or is_sure (request_of request.now) false ≡ true → IsOk result }
{
    talk_has_one_spelling();
    match read_request(alloc, request) {
        Ok(_) => {
            refuse(Refusal::BadSite { site }, out);
            Ok(())
        }
        Err(ReadFault::Malformed) => {
            refuse(Refusal::Malformed, out);
            Ok(())
        }
        Err(ReadFault::NoMemory) => {
            out.clear();
            Err(NoMemory)
        }
    }
}
