ghost use Rattle.std.specs.Prelude.{◌≡◌, false};

/// A reader or a writer that remembers whether it failed: whether a call returned an error other than `Interrupted`, which is tried
/// again, or a write of some bytes took none of them. A reader also remembers whether there was no memory for the last read.
#[derive(Drop)]
pub struct Device<T> {
    pub(crate) inner: T,
    pub(crate) failed: bool,
    pub(crate) starved: bool,
}

impl<T> Device<T> {
    ghost use Rattle.mg_http.specs.Device.{inner_of, has_failed, was_starved};

    /// Wraps a reader or a writer that has not failed yet.
    pub fn new(inner: T) -> Device<T>
        ensures inner { inner_of result ≡ inner }
        ensures working { has_failed result ≡ false }
        ensures starved { was_starved result ≡ false }
    {
        Device {
            inner,
            failed: false,
            starved: false,
        }
    }

    /// Whether a call has failed.
    pub fn failed(&self) -> bool
        ensures { result ≡ has_failed self.now }
    {
        self.failed
    }

    /// Whether there was no memory for the last read of a session. Then the reader was not called.
    pub fn was_starved(&self) -> bool
        ensures { result ≡ was_starved self.now }
    {
        self.starved
    }
}
