ghost use Rattle.std.specs.Prelude.{◌≡◌};
ghost use Rattle.mg_selector.specs.Meaning.{flip, in_sense};

/// Whether a selector has to hold (plain), or its negation (negated).
#[derive(Clone, Copy, PartialEq, Eq, Debug, Drop)]
pub enum Sense {
    Plain,
    Negated,
}

impl Sense {
    /// Returns the other sense. Takes no memory.
    pub fn flip(self) -> Sense
        ensures { result ≡ flip self }
    {
        match self {
            Sense::Plain => Sense::Negated,
            Sense::Negated => Sense::Plain,
        }
    }

    /// Returns the answer in this sense, given the answer in the plain sense (`plain`): negates it if this sense
    /// is negated. Takes no memory.
    pub fn of(self, plain: bool) -> bool
        ensures { result ≡ in_sense self plain }
    {
        match self {
            Sense::Plain => plain,
            Sense::Negated => !plain,
        }
    }
}
