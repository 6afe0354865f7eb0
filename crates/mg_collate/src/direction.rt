use std::cmp::Ordering;

/// The direction in which rows are listed: from the lowest up, or from the highest down.
#[derive(Clone, Copy, PartialEq, Eq, Debug)]
pub enum Direction {
    Asc,
    Desc,
}

impl Direction {
    ghost use Rattle.std.specs.Prelude.{◌≡◌, None, IfSome};
    ghost use Rattle.mg_collate.specs.Direction.{directed, direction_named, direction_name};
    ghost use Rattle.mg_collate.specs.declared.direction.Direction.{Direction as DirectionValue};

    /// Returns the direction that a text names, `asc` or `desc`; `None` for any other text. Takes no memory.
    ///
    /// Source: `sort` in CouchDB's API reference.
    pub fn named(name: &str) -> Option<Direction>
        ensures direction { result ≡ direction_named name.now }
        ensures some { IfSome result (λ direction. name.now ≡ direction_name direction) }
        ensures none { result ≡ None
            → (direction : DirectionValue) → ¬ (name.now ≡ direction_name direction) }
    {
        match name {
            "asc" => Some(Direction::Asc),
            "desc" => Some(Direction::Desc),
            _ => None,
        }
    }

    /// Returns the text that names the direction, as `named` reads it: `asc` or `desc`. Takes no memory.
    pub fn name(self) -> &'static str
        ensures { result.now ≡ direction_name self }
    {
        match self {
            Direction::Asc => "asc",
            Direction::Desc => "desc",
        }
    }

    /// Returns the order itself for `Asc`, and its reverse for `Desc`. Rows are listed in the order
    /// `direction.apply(a.cmp(b))`: descending reverses keys and ids together.
    ///
    /// Cost: constant. Takes no memory.
    pub fn apply(self, order: Ordering) -> Ordering
        ensures { result ≡ directed self order }
    {
        match self {
            Direction::Asc => order,
            Direction::Desc => order.reverse(),
        }
    }
}
