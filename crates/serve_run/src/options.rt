//! What a server is to do.

/// What a server is to do.
#[derive(Clone, Copy)]
pub struct ServeOptions<'a> {
    /// The address at which links are taken.
    pub address: &'a str,
    /// How many links are taken at most.
    pub links: u16,
    /// The addresses of the peers, up to 15, in the order in which each round calls them.
    pub peers: &'a [String],
    /// How many rounds of exchange are made, up to 1,000,000.
    pub rounds: u32,
    /// Whether each round ends with a collection.
    pub tidy: bool,
}
