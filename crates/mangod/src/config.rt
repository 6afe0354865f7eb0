ghost use Rattle.std.specs.Prelude.{◌≤◌};

/// The settings of the program: its parsed arguments. The texts are borrowed.
#[derive(Clone, Copy)]
pub(crate) struct Settings<'a> {
    pub(crate) db: &'a str,
    pub(crate) shards: usize,
    pub(crate) workers: usize,
    pub(crate) sessions: usize,
    pub(crate) addr: &'a str,
    ghost shards_within: { (1 ≤ shards) × (shards ≤ 64) },
    ghost workers_within: { (1 ≤ workers) × (workers ≤ 32) },
    ghost sessions_within: { (1 ≤ sessions) × (sessions ≤ 16) },
}
