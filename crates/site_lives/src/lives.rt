//! The lives that a site knows, and what it answers to requests about them.

ghost use Rattle.std.specs.Prelude.{◌≡◌, ◌↔◌, ◌-◌, is_none, IsTrue};
ghost use Rattle.std.specs.List.{list_all};
ghost use Rattle.wire_lives.specs.declared.introductions.Introduction.{Introduction};
ghost use Rattle.site_lives.specs.Lives.{no_lives, life_of, with_life, with_new, new_life, is_another, is_of_lives, lives_answer, verdict, meet, begin_life, introduction, fits_life};

use std::marker::Model;
use tardis_base::{MAX_SITES, ReplyBuf};
use wire_lives::life_codes::{
    ANOTHER_LIFE, BEGIN_LIFE, MEET, MET, NO_INTRODUCTION, NO_LIFE, OTHER_SITES, OWN_NUMBER,
};
use wire_lives::{Introduction, read_introduction, read_life};

/// The most sites.
const SITES: usize = MAX_SITES as usize;

/// A life that wasn't known before, and the number of its site.
#[derive(Clone, Copy)]
pub struct NewLife {
    pub number: u16,
    pub life: [u8; 16],
}

/// The life of each site of which one is known, the own one's among them.
#[derive(Drop)]
pub struct Lives {
    known: [Option<[u8; 16]>; SITES],
}

impl Model for Lives {
    ghost use Rattle.std.specs.Prelude.{◌≡◌, List, ℕ, Option, length};

    ghost Value = { List (Option (List ℕ)) };

    ghost view = { λ a. a.known };

    ghost invariant = { λ a. length a.known ≡ 16 };
}

impl Lives {
    /// None is known.
    pub fn new() -> Lives
        ensures { result ≡ no_lives }
    {
        Lives {
            known: [None; SITES],
        }
    }

    /// The life of the site with this number, where it is known.
    pub fn of(&self, number: u16) -> Option<[u8; 16]>
        ensures { result ≡ life_of self.now number }
    {
        let place = place_of(number);
        if place < SITES {
            self.known[place]
        } else {
            None
        }
    }

    /// From now on this is known too; a life of a number that no site can have isn't kept.
    pub fn put(&mut self, new: &NewLife)
        ensures { self.new ≡ with_life new.now.number new.now.life self.old }
    {
        let place = place_of(new.number);
        if place < SITES {
            self.known[place] = Some(new.life);
        }
    }

    /// Answers a request to meet a site or to begin a life, as the site with this number among so many, into `out`, whose bytes
    /// from before are gone; and tells the life that is known from now on and wasn't, if there is one. It takes no memory.
    pub fn answer(
        &mut self,
        own: u16,
        sites: u16,
        request: &[u8],
        out: &mut ReplyBuf,
    ) -> Option<NewLife>
        requires { IsTrue (is_of_lives request.now) }
        ensures reply { out.new ≡ (lives_answer own sites self.old request.now).0 }
        ensures new { result ≡ (lives_answer own sites self.old request.now).1 }
        ensures lives { self.new ≡ with_new result self.old }
    {
        out.clear();
        let (code, fields) = request.split_first()?;
        let (verdict, new) = if *code == MEET {
            self.meet(own, sites, fields)
        } else {
            self.begin(own, fields)
        };
        out.push_byte(*code);
        out.push_byte(verdict);
        if let Some(new) = &new {
            self.put(new);
        }
        new
    }

    /// What comes of an introduction, and the life that is new.
    fn meet(&self, own: u16, sites: u16, fields: &[u8]) -> (u8, Option<NewLife>)
        ensures { result ≡ meet own sites self.now fields.now }
    {
        match read_introduction(fields) {
            Some(introduction) => {
                let verdict = self.verdict(own, sites, &introduction);
                let new = if verdict == MET {
                    self.new_life(introduction.number, introduction.life)
                } else {
                    None
                };
                (verdict, new)
            },
            None => (NO_INTRODUCTION, None),
        }
    }

    /// What comes of meeting the site.
    fn verdict(&self, own: u16, sites: u16, introduction: &Introduction) -> u8
        ensures { result ≡ verdict own sites self.now introduction.now }
    {
        if introduction.sites != sites {
            OTHER_SITES
        } else if introduction.number == own {
            OWN_NUMBER
        } else if is_another(self.of(introduction.number), &introduction.life) {
            ANOTHER_LIFE
        } else if self.of(own).is_none() {
            NO_LIFE
        } else {
            MET
        }
    }

    /// What comes of the bytes of an own life, and the life that is new.
    fn begin(&self, own: u16, fields: &[u8]) -> (u8, Option<NewLife>)
        ensures { result ≡ begin_life own self.now fields.now }
    {
        match read_life(fields) {
            Some(life) => {
                if is_another(self.of(own), &life) {
                    (ANOTHER_LIFE, None)
                } else {
                    (MET, self.new_life(own, life))
                }
            },
            None => (NO_LIFE, None),
        }
    }

    /// The life of a site, where none is known of it.
    fn new_life(&self, number: u16, life: [u8; 16]) -> Option<NewLife>
        ensures { result ≡ new_life self.now number life }
    {
        if self.of(number).is_none() {
            Some(NewLife { number, life })
        } else {
            None
        }
    }

    /// How the site with this number, of so many, introduces itself, where its life has begun.
    pub fn introduction(&self, own: u16, sites: u16) -> Option<Introduction>
        ensures { result ≡ introduction own sites self.now }
    {
        match self.of(own) {
            Some(life) => Some(Introduction {
                number: own,
                sites,
                life,
            }),
            None => None,
        }
    }

    /// Whether a life that was new once may be taken back by the site with this number, of so many.
    pub fn fits(&self, own: u16, sites: u16, new: &NewLife) -> bool
        ensures { result ≡ fits_life own sites self.now new.now }
    {
        (1..=sites).contains(&new.number)
            && self.of(new.number).is_none()
            && if new.number == own {
                self.are_unknown()
            } else {
                self.of(own).is_some()
            }
    }

    /// Whether just the same lives are known.
    pub fn are_same(&self, others: &Lives) -> bool
        ensures { IsTrue result ↔ (self.now ≡ others.now) }
    {
        self.known == others.known
    }

    /// Whether none is known.
    fn are_unknown(&self) -> bool
        ensures { result ≡ list_all is_none self.now }
    {
        self.known.iter().all(|life| life.is_none())
    }
}

/// Whether a request is one about lives, to meet a site or to begin a life.
pub fn is_of_lives(request: &[u8]) -> bool
    ensures { result ≡ is_of_lives request.now }
{
    match request {
        [code, ..] => *code == MEET || *code == BEGIN_LIFE,
        [] => false,
    }
}

/// Whether another life than this is known.
fn is_another(known: Option<[u8; 16]>, life: &[u8; 16]) -> bool
    ensures { result ≡ is_another known life.now }
{
    match known {
        Some(known) => known != *life,
        None => false,
    }
}

/// Where what is known of the site with this number stands.
fn place_of(number: u16) -> usize
    ensures { result ≡ number - 1 }
{
    usize::from(number.saturating_sub(1))
}
