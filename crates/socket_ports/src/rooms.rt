//! What is told of how many states a site keeps, and of what keeps them from being collected.

/// What an edge needs to know to tell of the room that is left.
#[derive(Clone, Copy)]
pub struct RoomPlan {
    /// The site may keep so many states.
    pub states: u32,
    /// The first byte of the reply what keeps states from being collected. Behind it stand the kind of that, and a number, the most
    /// significant byte first.
    pub oldest: u8,
    /// The kind that is a session; its number has two bytes.
    pub session: u8,
    /// The kind that is another site; its number has two bytes.
    pub other_site: u8,
    /// The kind that are leaves; how many there are has four bytes.
    pub leaves: u8,
}

/// What keeps states from being collected, as the site told it last.
#[derive(Clone, Copy)]
pub(crate) enum Held {
    Nothing,
    /// This session.
    Session(u16),
    /// The site with this number, which has been named without a break since this time of the edge's clock.
    OtherSite { number: u16, since: u64 },
    /// So many leaves.
    Leaves(u32),
}

impl Held {
    /// That it is this site, as is told now.
    fn by_site(self, number: u16, now: u64) -> Held {
        match self {
            Held::OtherSite {
                number: before,
                since,
            } if before == number => Held::OtherSite { number, since },
            _ => Held::OtherSite { number, since: now },
        }
    }
}

/// How full the site was told to be.
#[derive(Clone, Copy, PartialEq, Eq)]
enum Told {
    Nothing,
    /// More than half of as many as may be were kept.
    Half,
    /// As many were kept as may be.
    All,
}

/// How many states may be kept, what was told of how many are, and what keeps them from being collected.
#[derive(Clone, Copy)]
pub(crate) struct Room {
    plan: RoomPlan,
    told: Told,
    held: Held,
}

impl Room {
    pub(crate) fn new(plan: RoomPlan) -> Room {
        Room {
            plan,
            told: Told::Nothing,
            held: Held::Nothing,
        }
    }

    pub(crate) fn most(&self) -> u32 {
        self.plan.states
    }

    /// What kept states from being collected when that was told last.
    pub(crate) fn held(&self) -> Held {
        self.held
    }

    /// Notes what keeps states from being collected, where the reply tells that at this time of the edge's clock.
    pub(crate) fn note_held(&mut self, reply: &[u8], now: u64) {
        if let [code, told @ ..] = reply {
            if *code == self.plan.oldest {
                self.held = self.held_as(told, now);
            }
        }
    }

    /// What these bytes behind the code tell.
    fn held_as(&self, told: &[u8], now: u64) -> Held {
        match told {
            [kind, high, low] if *kind == self.plan.session => {
                Held::Session(u16::from_be_bytes([*high, *low]))
            }
            [kind, high, low] if *kind == self.plan.other_site => {
                self.held.by_site(u16::from_be_bytes([*high, *low]), now)
            }
            [kind, first, second, third, fourth] if *kind == self.plan.leaves => {
                Held::Leaves(u32::from_be_bytes([*first, *second, *third, *fourth]))
            }
            _ => Held::Nothing,
        }
    }

    /// Notes that so many states are kept, and answers whether that is to be told: where they are more than half of as many as may
    /// be, or as many, for the first time since they were fewer than a quarter.
    pub(crate) fn is_news(&mut self, kept: u32) -> bool {
        let before = self.told;
        self.told = if kept >= self.plan.states {
            Told::All
        } else if kept > self.plan.states / 2 && before == Told::Nothing {
            Told::Half
        } else if kept < self.plan.states / 4 {
            Told::Nothing
        } else {
            before
        };
        self.told != before && self.told != Told::Nothing
    }
}
