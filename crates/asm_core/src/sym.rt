ghost use Rattle.std.specs.Prelude.{◌≡◌, [], ◌∷◌, ◌++◌, length, slice_get, IfOk, OnOk, OnErr};

use crate::{Duplicate, Memory, Op, Reg, Repeat, Slice, Width};
use smallvec::SmallVec;
use std::alloc::Global;
use std::marker::Model;

/// A register, or wherever the compiler puts an operand.
#[derive(Clone, Copy, Debug, PartialEq, Eq)]
pub enum Place {
    Reg(Reg),
    Operand(u8),
}

/// A displacement: a number, or an operand written with `%c`.
#[derive(Clone, Copy, Debug, PartialEq, Eq)]
pub enum Disp {
    Number(i64),
    Hole(u8),
}

/// An operand of an instruction as a template names it, before any placement.
#[derive(Clone, Copy, Debug, PartialEq, Eq)]
pub enum Arg {
    Register(Place, Slice),
    /// As written, from -2^31 to 2^32 - 1; it is read modulo 2 to the field's width.
    Number(i64),
    /// The number of the operand of that number.
    Hole(u8),
    /// The memory operand of that number.
    Memory(u8),
    /// A written address: displacement, base, index and scale.
    Address(Disp, Option<Place>, Option<(Place, u8)>),
    /// The number of the goal's instruction.
    Label(u32),
}

impl Default for Arg {
    fn default() -> Self {
        Arg::Number(0)
    }
}

/// The operands of an instruction, as they are written. Contracts see their list.
#[derive(Debug, Drop)]
pub struct Args {
    items: SmallVec<Arg, 3>,
}

impl Model for Args {
    ghost use Rattle.std.specs.Prelude.{List};
    ghost use Rattle.asm_core.specs.declared.sym.Arg.{Arg};

    ghost Value = { List Arg };

    ghost view = { λ a. a.items.items };
}

impl Args {
    pub fn new(alloc: Global) -> Args
        ensures { result ≡ [] }
    {
        Args {
            items: SmallVec::new(alloc),
        }
    }

    pub fn from_slice(alloc: Global, args: &[Arg]) -> Result<Args, Memory>
        ensures { IfOk result (λ made. made ≡ args.now) }
    {
        Ok(Args {
            items: SmallVec::from_slice(alloc, args)?,
        })
    }

    pub fn push(&mut self, arg: Arg) -> Result<(), Memory>
        ensures { OnOk result (self.new ≡ self.old ++ arg ∷ []) }
    {
        Ok(self.items.push(arg)?)
    }

    pub fn as_slice(&self) -> &[Arg]
        ensures { result.now ≡ self.now }
    {
        self.items.as_slice()
    }

    pub fn get(&self, k: usize) -> Option<Arg>
        ensures { result ≡ slice_get self.now k }
    {
        self.items.as_slice().get(k).copied()
    }
}

/// An instruction as a template writes it, before any placement.
#[derive(Debug, Drop)]
pub struct Sym {
    pub op: Op,
    pub width: Width,
    pub args: Args,
    pub repeat: Repeat,
    pub lock: bool,
    /// The offset in the file of the instruction's first byte.
    pub place: u32,
}

impl Duplicate for Args {
    fn duplicate(&self, alloc: Global) -> Result<Self, Memory> {
        Args::from_slice(alloc, self.as_slice())
    }
}

impl Duplicate for Sym {
    fn duplicate(&self, alloc: Global) -> Result<Self, Memory> {
        Ok(Sym {
            op: self.op,
            width: self.width,
            args: self.args.duplicate(alloc)?,
            repeat: self.repeat,
            lock: self.lock,
            place: self.place,
        })
    }
}
