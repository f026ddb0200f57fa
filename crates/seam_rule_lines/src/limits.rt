/// The most entities that may be created over a run.
pub const MOST_ENTITIES: usize = 65_536;

/// The most live entities that may have a client.
pub const MOST_CLIENTS: usize = 256;

/// The most accepted lines other than `sync` in a round: with that many it ends.
pub const MOST_LINES: usize = 65_536;
