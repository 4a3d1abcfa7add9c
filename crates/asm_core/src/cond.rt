ghost use Rattle.std.specs.Prelude.{◌≡◌};
ghost use Rattle.asm_core.specs.Cond.{cond_named};

/// A condition on the flags (Intel SDM volume 2, "Jcc"), as `setCC`, `cmovCC`, `jCC` and flag outputs spell it.
#[derive(Clone, Copy, Debug, PartialEq, Eq)]
pub enum Cond {
    O,
    No,
    B,
    Ae,
    E,
    Ne,
    Be,
    A,
    S,
    Ns,
    P,
    Np,
    L,
    Ge,
    Le,
    G,
}

impl Cond {
    /// The condition of that spelling; `None` exactly where no condition is spelt so.
    pub fn named(spelling: &[u8]) -> Option<Cond>
        ensures { result ≡ cond_named spelling.now }
    {
        match spelling {
            b"o" => Some(Cond::O),
            b"no" => Some(Cond::No),
            b"b" | b"c" | b"nae" => Some(Cond::B),
            b"ae" | b"nb" | b"nc" => Some(Cond::Ae),
            b"e" | b"z" => Some(Cond::E),
            b"ne" | b"nz" => Some(Cond::Ne),
            b"be" | b"na" => Some(Cond::Be),
            b"a" | b"nbe" => Some(Cond::A),
            b"s" => Some(Cond::S),
            b"ns" => Some(Cond::Ns),
            b"p" | b"pe" => Some(Cond::P),
            b"np" | b"po" => Some(Cond::Np),
            b"l" | b"nge" => Some(Cond::L),
            b"ge" | b"nl" => Some(Cond::Ge),
            b"le" | b"ng" => Some(Cond::Le),
            b"g" | b"nle" => Some(Cond::G),
            _ => None,
        }
    }
}
