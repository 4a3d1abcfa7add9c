ghost use Rattle.std.specs.Prelude.{◌≡◌, IsTrue};
ghost use Rattle.asm_places.specs.Classes.{asked_of, is_asked};

use asm_core::Reg;

/// Operands that have to use a register: in it, or with it in the address.
#[derive(Clone, Copy, Debug)]
pub(crate) struct Asked {
    pub register: Reg,
    pub first: Option<usize>,
    pub second: Option<usize>,
}

/// What placement is looked for.
#[derive(Clone, Copy, Debug)]
pub(crate) enum Goal {
    /// A roomy one.
    Room,
    /// An allowed one in which some operands use a register.
    Use(Asked),
}

impl Goal {
    /// The register that operand k has to use, if any.
    pub fn asked_of(&self, k: usize) -> Option<Reg>
        ensures { result ≡ asked_of self.now k }
    {
        match self {
            Goal::Room => None,
            Goal::Use(asked) if is_asked(asked.first, k) || is_asked(asked.second, k) => {
                Some(asked.register)
            }
            Goal::Use(_) => None,
        }
    }
}

fn is_asked(asked: Option<usize>, k: usize) -> bool
    ensures { result ≡ is_asked asked k }
{
    match asked {
        Some(operand) => operand == k,
        None => false,
    }
}
