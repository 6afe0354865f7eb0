ghost use Rattle.std.specs.Prelude.{◌≤◌};

/// The settings of the program. The texts are those of the command line.
#[derive(Clone, Copy)]
pub(crate) struct Settings<'a> {
    pub(crate) file: &'a str,
    pub(crate) db: &'a str,
    pub(crate) listen: &'a str,
    pub(crate) shards: usize,
    pub(crate) workers: usize,
    pub(crate) sessions: usize,
    ghost shards_within: { (1 ≤ shards) × (shards ≤ 64) },
    ghost workers_within: { (1 ≤ workers) × (workers ≤ 32) },
    ghost sessions_within: { (1 ≤ sessions) × (sessions ≤ 16) },
}
