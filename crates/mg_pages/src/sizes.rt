//! How many elements a page has, and how many children a level. No result depends on these numbers.

/// The most elements of a page, unless a `NewPage` had more, or there was no memory to split it.
pub const PAGE_LIMIT: usize = 64;

/// How many elements a page gets when a collection is built: fewer than the most, so that the next insertions find room.
pub const PAGE_FILL: usize = 48;

/// For how many more elements a full page gets room, but at most twice its own: one that doubled would have room that it seldom fills.
pub const PAGE_STEP: usize = 8;

/// Neighbouring pages with no more elements than this together are joined.
pub const PAGE_JOIN: usize = 32;

/// The most children of a level, unless there was no memory to split it.
pub const LEVEL_LIMIT: usize = 16;

/// How many children a level gets when a collection is built.
pub const LEVEL_FILL: usize = 12;

/// Neighbouring levels with no more children than this together are joined.
pub const LEVEL_JOIN: usize = 8;
