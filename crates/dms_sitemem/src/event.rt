ghost use Rattle.std.specs.Prelude.{◌≡◌, if◌then◌else◌};
ghost use Rattle.dms_sitemem.specs.Events.{is_call, is_sync};

/// What was done to a site. A flag says whether the call succeeded.
#[derive(Drop)]
pub enum SiteEvent {
    /// A length, the last present file or bytes were asked for.
    Looked(bool),
    /// Bytes were written to a file from a position on.
    Wrote(u32, u64, Vec<u8>, bool),
    /// A file was cut to a length.
    Shortened(u32, u64, bool),
    /// All was to be made stable.
    Synced(bool),
    /// Bytes were printed.
    Said(Vec<u8>, bool),
    /// A file was given these bytes from outside. It isn't a call.
    Replaced(u32, Vec<u8>),
    /// This text stood there before the first call. It isn't a call.
    Recalled(Vec<u8>),
}

impl SiteEvent {
    /// 1 for one of the seven calls, else 0.
    pub fn calls(&self) -> u64
        ensures { result ≡ (if is_call self.now then 1 else 0) }
    {
        match self {
            SiteEvent::Replaced(_, _) | SiteEvent::Recalled(_) => 0,
            _ => 1,
        }
    }

    /// Whether it is a sync that succeeded.
    pub fn is_sync(&self) -> bool
        ensures { result ≡ is_sync self.now }
    {
        match self {
            SiteEvent::Synced(done) => *done,
            _ => false,
        }
    }
}
