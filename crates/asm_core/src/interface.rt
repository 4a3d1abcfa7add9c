ghost use Rattle.std.specs.Prelude.{◌≡◌};
ghost use Rattle.asm_core.specs.declared.interface.IfaceEnd.{IfaceEnd};

use crate::{Cond, Duplicate, Finding, Items, Mark, Memory, RegSet};
use std::alloc::{AllocError, AllocFailed, Global};
use thiserror::Error;

/// Whether an operand is written, read and written, or read (`=`, `+`, neither).
#[derive(Clone, Copy, Debug, PartialEq, Eq)]
pub enum Role {
    Out,
    InOut,
    In,
}

/// What one alternative of a constraint allows.
#[derive(Clone, Copy, Debug, PartialEq, Eq)]
pub struct AltIface {
    /// `&`: the output may be written before the inputs are read.
    pub early: bool,
    /// The number of the output that this input is tied to.
    pub tied: Option<u8>,
    pub regs: RegSet,
    /// The pair edx:eax.
    pub pair: bool,
    pub mem: bool,
    /// The least and the greatest number.
    pub numbers: Option<(i64, i64)>,
}

#[derive(Debug, Drop)]
pub struct OperandIface {
    pub role: Role,
    /// In bytes.
    pub size: u32,
    /// Whether the value is a pointer.
    pub pointer: bool,
    /// The value where it is known.
    pub known: Option<i64>,
    /// The condition of a flag output, as `=@ccz`. It has no place and takes no register: in every alternative it allows the
    /// number 0 alone, and its known value is 0.
    pub flag: Option<Cond>,
    pub alts: Items<AltIface>,
}

/// What a statement tells the compiler of its operands and of what it changes.
#[derive(Debug, Drop)]
pub struct Interface {
    pub operands: Items<OperandIface>,
    pub clobbers: RegSet,
    pub cc: bool,
    pub memory: bool,
}

/// Why a statement has no interface.
#[derive(Debug, Drop, Error)]
pub enum IfaceEnd {
    /// Something in it lies outside the tables.
    #[error("outside the tables")]
    Outside(Mark),
    /// Its interface is malformed: the findings of the rule K2 in their order.
    #[error("a malformed interface")]
    Broken(Items<Finding>),
    #[error("out of memory")]
    Memory,
}

impl From<Memory> for IfaceEnd {
    ghost from_gives = { λ _ e. e ≡ IfaceEnd.Memory };

    fn from(_: Memory) -> IfaceEnd {
        IfaceEnd::Memory
    }
}

impl From<AllocError> for IfaceEnd {
    ghost from_gives = { λ _ e. e ≡ IfaceEnd.Memory };

    fn from(_: AllocError) -> IfaceEnd {
        IfaceEnd::Memory
    }
}

impl<T: Drop> From<AllocFailed<T>> for IfaceEnd {
    ghost from_gives = { λ _ e. e ≡ IfaceEnd.Memory };

    fn from(_: AllocFailed<T>) -> IfaceEnd {
        IfaceEnd::Memory
    }
}

impl Duplicate for OperandIface {
    fn duplicate(&self, alloc: Global) -> Result<Self, Memory> {
        Ok(OperandIface {
            role: self.role,
            size: self.size,
            pointer: self.pointer,
            known: self.known,
            flag: self.flag,
            alts: Items::from_slice(alloc, self.alts.as_slice())?,
        })
    }
}

impl Duplicate for Interface {
    fn duplicate(&self, alloc: Global) -> Result<Self, Memory> {
        Ok(Interface {
            operands: crate::duplicate_items(alloc, self.operands.as_slice())?,
            clobbers: self.clobbers,
            cc: self.cc,
            memory: self.memory,
        })
    }
}
