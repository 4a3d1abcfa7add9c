ghost use Rattle.std.specs.Prelude.{◌≡◌, ◌+◌, ◌^◌, ◌<◌, min, max};

/// Declarations of one name that follow on one another, the last of which the run belongs to.
#[derive(Clone, Copy, Debug)]
pub(crate) struct Run {
    /// None of them is seen before this offset,
    pub earliest: u32,
    /// nor from this one on.
    pub latest: u32,
    /// How many there are.
    pub length: usize,
    /// How many declarations of the file a look-up goes on with behind the run.
    pub before: usize,
}

/// How a look-up goes on from a declaration.
#[derive(Clone, Copy, Debug)]
pub(crate) struct Link {
    /// With how many declarations of the file, the last of which has the same name.
    pub before: usize,
    /// What it may leave out at once.
    pub run: Run,
}

impl Run {
    ghost use Rattle.c_scopes.specs.Chain.{is_outside};

    /// Whether no declaration of the run is seen at the place.
    pub fn is_outside(&self, place: u32) -> bool
        ensures { result ≡ is_outside self.now place }
    {
        place < self.earliest || self.latest <= place
    }

    /// The run together with the one before it.
    pub fn joined(self, earlier: Run) -> Run
        requires { self.length + earlier.length < 2 ^ 64 }
        ensures { result ≡ record { earliest = min self.earliest earlier.earliest; latest = max self.latest earlier.latest; length = self.length + earlier.length; before = earlier.before } }
    {
        Run {
            earliest: self.earliest.min(earlier.earliest),
            latest: self.latest.max(earlier.latest),
            length: self.length + earlier.length,
            before: earlier.before,
        }
    }
}
