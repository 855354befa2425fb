//! A gate and a dial over links in memory, of which some calls may fail.

ghost use Rattle.std.specs.Prelude.{◌≡◌, ◌≤◌, [], Some, true, false, map, option_map, IfOk, OnOk};
ghost use Rattle.std.specs.String.{string_bytes};
ghost use Rattle.tardis_io.specs.Faults.{HasCause};
ghost use Rattle.tardis_io.specs.Links.{HandsNext, HandsCalled, AsksFor, IsOut, IsCalled, with_back, with_hung};
ghost use Rattle.memory_io.specs.Links.{MemoryAnswers, MemoryCalls};
ghost use Rattle.memory_io.specs.Memory.{fresh_plan};

use crate::plans::CallPlan;
use std::alloc::Global;
use std::marker::Model;
use tardis_base::NoMemory;
use tardis_io::{Dial, Failed, Gate, Link};

/// A gate that hands out its links in order and then none. It tells them.
#[derive(Drop)]
pub struct MemoryGate<L> {
    left: Vec<L>,
    back: Vec<(u16, L)>,
    out: usize,
    plan: CallPlan,
    bound: bool,
}

/// A dial that hands out its links in order, whatever the addresses. It tells them, and the addresses that it was asked
/// for, until it finds no memory to keep one.
#[derive(Drop)]
pub struct MemoryDial<L> {
    left: Vec<L>,
    back: Vec<L>,
    out: usize,
    asked: Asked,
    plan: CallPlan,
}

/// Addresses, oldest first, until there was no memory to keep one.
#[derive(Drop)]
struct Asked {
    addresses: Vec<String>,
    lost: bool,
}

impl Model for Asked {
    ghost use Rattle.std.specs.Prelude.{ℕ, List, Option, map};
    ghost use Rattle.std.specs.String.{string_bytes};
    ghost use Rattle.memory_io.specs.Links.{told_addresses};

    ghost Value = { Option (List (List ℕ)) };

    ghost view = { λ a. told_addresses a.lost (map (λ s. string_bytes s) a.addresses.items) };
}

impl Asked {
    fn new(alloc: Global) -> Asked
        ensures { result ≡ Some [] }
    {
        Asked {
            addresses: Vec::new(alloc),
            lost: false,
        }
    }

    fn all(&self) -> Option<&[String]>
        ensures { option_map (λ all. map (λ a. string_bytes a) all.now) result ≡ self.now }
    {
        if self.lost {
            None
        } else {
            Some(self.addresses.as_slice())
        }
    }

    /// Keeps an address, where there is memory and was for all before it.
    fn note(&mut self, address: &str)
        ensures { AsksFor self.old self.new address.now }
    {
        if self.lost {
            return;
        }
        match String::from_str(*self.addresses.allocator(), address) {
            Ok(address) => {
                if self.addresses.push(address).is_err() {
                    self.lost = true;
                }
            }
            Err(_) => self.lost = true,
        }
    }
}

impl<L> Model for MemoryGate<L> {
    ghost use Rattle.std.specs.Prelude.{length, ◌+◌, ◌^◌, ◌<◌, ◌≤◌, vec_capacity};
    ghost use Rattle.memory_io.specs.Links.{KeptGate};

    ghost Value = { KeptGate L };

    ghost view = { λ g. record { links = record { left = g.left.items; back = g.back.items; out = g.out }; plan = g.plan; bound = g.bound } };

    ghost invariant = { λ g. (length g.left.items + g.out + length g.back.items ≤ vec_capacity g.back)
        × (length g.left.items + g.out + length g.back.items < 2 ^ 64) };
}

impl<L> Model for MemoryDial<L> {
    ghost use Rattle.std.specs.Prelude.{length, ◌+◌, ◌^◌, ◌<◌, ◌≤◌, vec_capacity};
    ghost use Rattle.memory_io.specs.Links.{KeptDial};

    ghost Value = { KeptDial L };

    ghost view = { λ g. record { links = record { left = g.left.items; back = g.back.items; out = g.out; asked = g.asked }; plan = g.plan } };

    ghost invariant = { λ g. (length g.left.items + g.out + length g.back.items ≤ vec_capacity g.back)
        × (length g.left.items + g.out + length g.back.items < 2 ^ 64) };
}

impl<L: Link> MemoryGate<L> {
    /// A gate of these links. Its calls of `bind` and `next` are counted together, from 1, and those listed in
    /// `failing` fail.
    pub fn new(alloc: Global, links: Vec<L>, failing: &[u64]) -> Result<MemoryGate<L>, NoMemory>
        ensures { IfOk result (λ g. g ≡ record { links = record { left = links.items; back = []; out = 0 }; plan = fresh_plan failing.now; bound = false }) }
    {
        let Ok(back) = Vec::with_capacity(alloc, links.len()) else {
            return Err(NoMemory);
        };
        let plan = CallPlan::new(alloc, failing)?;
        Ok(MemoryGate {
            left: links,
            back,
            out: 0,
            plan,
            bound: false,
        })
    }

    /// The links that were put back, with the numbers of their sessions.
    pub fn back(&self) -> &[(u16, L)]
        ensures { result.now ≡ self.now.links.back }
    {
        self.back.as_slice()
    }
}

impl<L: Link> MemoryDial<L> {
    /// A dial to these links. Its calls are counted from 1; those listed in `failing` fail, and so does each call once
    /// no link is left.
    pub fn new(alloc: Global, links: Vec<L>, failing: &[u64]) -> Result<MemoryDial<L>, NoMemory>
        ensures { IfOk result (λ d. d ≡ record { links = record { left = links.items; back = []; out = 0; asked = Some [] }; plan = fresh_plan failing.now }) }
    {
        let Ok(back) = Vec::with_capacity(alloc, links.len()) else {
            return Err(NoMemory);
        };
        let plan = CallPlan::new(alloc, failing)?;
        Ok(MemoryDial {
            left: links,
            back,
            out: 0,
            asked: Asked::new(alloc),
            plan,
        })
    }

    /// The links that were put back.
    pub fn back(&self) -> &[L]
        ensures { result.now ≡ self.now.links.back }
    {
        self.back.as_slice()
    }

    /// The addresses that it was asked for, oldest first, unless one couldn't be kept.
    pub fn asked(&self) -> Option<&[String]>
        ensures { option_map (λ all. map (λ a. string_bytes a) all.now) result ≡ self.now.links.asked }
    {
        self.asked.all()
    }
}

impl<L: Link> Gate for MemoryGate<L> {
    type Link = L;

    ghost told = { λ g. Some g.links };

    ghost faults = { λ g. g.plan.faults };

    ghost is_bound = { λ g. g.bound ≡ true };

    fn bind(&mut self, address: &str) -> Result<(), Failed>
        ensures cause { HasCause self.old.plan.faults self.new.plan.faults result }
        ensures told { Some self.new.links ≡ Some self.old.links }
        ensures exact { MemoryAnswers self.old.plan self.new.plan result }
        ensures bound { OnOk result (self.new.bound ≡ true) }
    {
        let _ = address;
        self.plan.call()?;
        self.bound = true;
        Ok(())
    }

    fn next(&mut self) -> Result<Option<L>, Failed>
        requires bound { self.old.bound ≡ true }
        ensures cause { HasCause self.old.plan.faults self.new.plan.faults result }
        ensures told { HandsNext (Some self.old.links) (Some self.new.links) result }
        ensures bound { self.new.bound ≡ true }
        ensures exact { MemoryAnswers self.old.plan self.new.plan result }
    {
        self.plan.call()?;
        if self.left.is_empty() {
            return Ok(None);
        }
        self.out += 1;
        Ok(Some(self.left.remove(0)))
    }

    fn put_back(&mut self, session: u16, link: L)
        requires out { IsOut (Some self.old.links) }
        requires finished { L.is_finished link }
        ensures faults { self.new.plan.faults ≡ self.old.plan.faults }
        ensures told { Some self.new.links ≡ with_back (Some self.old.links) session link }
        ensures bound { self.old.bound ≡ true → self.new.bound ≡ true }
        ensures same { self.new.plan ≡ self.old.plan }
    {
        self.out -= 1;
        self.back.push_reserved((session, link));
    }
}

impl<L: Link> Dial for MemoryDial<L> {
    type Link = L;

    ghost told = { λ d. Some d.links };

    ghost faults = { λ d. d.plan.faults };

    fn call(&mut self, address: &str) -> Result<L, Failed>
        ensures cause { HasCause self.old.plan.faults self.new.plan.faults result }
        ensures told { HandsCalled (Some self.old.links) (Some self.new.links) address.now result }
        ensures exact { MemoryCalls self.old self.new result }
    {
        self.asked.note(address);
        self.plan.call()?;
        if self.left.is_empty() {
            self.plan.fault();
            return Err(Failed);
        }
        self.out += 1;
        Ok(self.left.remove(0))
    }

    fn put_back(&mut self, link: L)
        requires out { IsCalled (Some self.old.links) }
        requires finished { L.is_finished link }
        ensures faults { self.new.plan.faults ≡ self.old.plan.faults }
        ensures told { Some self.new.links ≡ with_hung (Some self.old.links) link }
        ensures same { self.new.plan ≡ self.old.plan }
    {
        self.out -= 1;
        self.back.push_reserved(link);
    }
}
