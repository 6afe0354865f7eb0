//! Where one connection of the table is, and how long it may stay there.
ghost use Rattle.std.specs.Prelude.{◌≡◌, true, IfSome, IfNone, Some};
ghost use Rattle.mg_server.specs.Places.{after_event, came_to_hand, in_hand, place_waits, queue_turns};
ghost use Rattle.mg_server.specs.GivingBack.{IsInHand, queues};

/// How a connection stays where it is put. Times are in microseconds since the edge was opened.
#[derive(Clone, Copy, PartialEq, Eq, Debug)]
pub(crate) struct Stay {
    /// The bytes of memory that it holds.
    pub(crate) held: usize,
    /// When a byte was last read or written.
    pub(crate) stirred: u64,
    /// When it is closed, unless a thread takes it in hand before.
    pub(crate) deadline: u64,
}

/// Where a connection is.
#[derive(Drop)]
pub(crate) enum Place<T> {
    /// It waits for an event.
    Waiting(T, Stay),
    /// It is in the queue: a thread visits it next.
    Queued(T, Stay),
    /// A thread has it in hand. `true`: an event came meanwhile.
    InHand(bool),
}

/// What the table has at one key.
#[derive(Drop)]
pub(crate) struct Entry<T> {
    /// The number of the connection. No other connection of the table has had it.
    pub(crate) number: u64,
    pub(crate) place: Place<T>,
}

/// What a thread does with a connection that it gives back.
#[derive(Clone, Copy, PartialEq, Eq, Debug)]
pub(crate) enum Rest {
    /// It waits for an event.
    Event,
    /// It is visited again: an event may not come, since what is to be done is there already.
    Visit,
}

impl Rest {
    /// Whether the connection is queued. `called`: an event came while the thread had it in hand.
    pub(crate) fn queues(self, called: bool) -> bool
        ensures { result ≡ queues self called }
    {
        called || self == Rest::Visit
    }
}

impl<T: Drop> Place<T> {
    /// Passes an event on. A connection that waits comes to hand; one that is in hand remembers the event; one that is queued is
    /// visited anyway.
    pub(crate) fn called(self) -> (Place<T>, Option<(T, Stay)>)
        ensures place { result.0 ≡ after_event self }
        ensures taken { result.1 ≡ came_to_hand self }
    {
        match self {
            Place::Waiting(item, stay) => (Place::InHand(false), Some((item, stay))),
            Place::Queued(item, stay) => (Place::Queued(item, stay), None),
            Place::InHand(_) => (Place::InHand(true), None),
        }
    }

    /// Takes a connection that waits.
    pub(crate) fn from_waiting(self) -> (T, Stay)
        requires { place_waits self ≡ true }
        ensures { self ≡ Place.Waiting result.0 result.1 }
    {
        match self {
            Place::Waiting(item, stay) => (item, stay),
            Place::Queued(_, _) => unreachable!(),
            Place::InHand(_) => unreachable!(),
        }
    }

    /// Takes a connection that is queued.
    pub(crate) fn from_queue(self) -> (T, Stay)
        requires { queue_turns self ≡ 1 }
        ensures { self ≡ Place.Queued result.0 result.1 }
    {
        match self {
            Place::Queued(item, stay) => (item, stay),
            Place::Waiting(_, _) => unreachable!(),
            Place::InHand(_) => unreachable!(),
        }
    }
}

impl<T: Drop> Entry<T> {
    /// Whether an event came while a thread had the connection in hand. `None`: no thread has the connection of this number in hand.
    pub(crate) fn is_called(&self, number: u64) -> Option<bool>
        ensures some { IfSome result (λ called. Some self.now ≡ in_hand number called) }
        ensures none { IfNone result (¬ (IsInHand number (Some self.now))) }
    {
        match &self.place {
            Place::InHand(called) if self.number == number => Some(*called),
            _ => None,
        }
    }
}
