//! Words in which the rows of the instruction table are written as constants. `specs/RowTerms` of asm_core has the same
//! words for the definitions.

use asm_core::{Bytes, Flag, Function, Input, MicroOp, Reg, Site, Target};

/// A micro-operation: its target, its function, and one to three inputs.
#[macro_export]
macro_rules! micro {
    ($target:expr, $function:ident, $x:expr) => {
        $crate::micro!($target, $function, $x, asm_core::Input::Number(0))
    };
    ($target:expr, $function:ident, $x:expr, $y:expr) => {
        $crate::micro!($target, $function, $x, $y, asm_core::Input::Number(0))
    };
    ($target:expr, $function:ident, $x:expr, $y:expr, $z:expr) => {
        asm_core::MicroOp {
            target: $target,
            function: asm_core::Function::$function,
            x: $x,
            y: $y,
            z: $z
        }
    };
}

/// The operands as they are written.
pub const FIRST: Input = Input::Read(Site::Argument(0, Bytes::Whole));

pub const SECOND: Input = Input::Read(Site::Argument(1, Bytes::Whole));

pub const THIRD: Input = Input::Read(Site::Argument(2, Bytes::Whole));

/// The operands as targets.
pub const TO_FIRST: Target = Target::Site(Site::Argument(0, Bytes::Whole));

pub const TO_SECOND: Target = Target::Site(Site::Argument(1, Bytes::Whole));

pub const TO_THIRD: Target = Target::Site(Site::Argument(2, Bytes::Whole));

/// The accumulator, al, ax or eax as the width says.
pub const ACCUMULATOR: Input = Input::Read(Site::Register(Reg::Eax, Bytes::Whole));

pub const TO_ACCUMULATOR: Target = Target::Site(Site::Register(Reg::Eax, Bytes::Whole));

/// All four bytes of a register.
pub const EAX: Input = Input::Read(Site::Register(Reg::Eax, Bytes::All));

pub const EBX: Input = Input::Read(Site::Register(Reg::Ebx, Bytes::All));

pub const ECX: Input = Input::Read(Site::Register(Reg::Ecx, Bytes::All));

pub const EDX: Input = Input::Read(Site::Register(Reg::Edx, Bytes::All));

pub const ESI: Input = Input::Read(Site::Register(Reg::Esi, Bytes::All));

pub const EDI: Input = Input::Read(Site::Register(Reg::Edi, Bytes::All));

/// All four bytes of a register as a target.
pub const TO_EAX: Target = Target::Site(Site::Register(Reg::Eax, Bytes::All));

pub const TO_EBX: Target = Target::Site(Site::Register(Reg::Ebx, Bytes::All));

pub const TO_ECX: Target = Target::Site(Site::Register(Reg::Ecx, Bytes::All));

pub const TO_EDX: Target = Target::Site(Site::Register(Reg::Edx, Bytes::All));

pub const TO_ESI: Target = Target::Site(Site::Register(Reg::Esi, Bytes::All));

pub const TO_EDI: Target = Target::Site(Site::Register(Reg::Edi, Bytes::All));

/// A flag.
pub const CF: Input = Input::Read(Site::Flag(Flag::Cf));

pub const PF: Input = Input::Read(Site::Flag(Flag::Pf));

pub const AF: Input = Input::Read(Site::Flag(Flag::Af));

pub const ZF: Input = Input::Read(Site::Flag(Flag::Zf));

pub const SF: Input = Input::Read(Site::Flag(Flag::Sf));

pub const OF: Input = Input::Read(Site::Flag(Flag::Of));

pub const DF: Input = Input::Read(Site::Flag(Flag::Df));

/// A flag as a target.
pub const TO_CF: Target = Target::Site(Site::Flag(Flag::Cf));

pub const TO_PF: Target = Target::Site(Site::Flag(Flag::Pf));

pub const TO_AF: Target = Target::Site(Site::Flag(Flag::Af));

pub const TO_ZF: Target = Target::Site(Site::Flag(Flag::Zf));

pub const TO_SF: Target = Target::Site(Site::Flag(Flag::Sf));

pub const TO_OF: Target = Target::Site(Site::Flag(Flag::Of));

pub const TO_DF: Target = Target::Site(Site::Flag(Flag::Df));

/// Numbers.
pub const ZERO: Input = Input::Number(0);

pub const ONE: Input = Input::Number(1);

/// A flag with an undefined bit of its own.
pub const UNDEFINED_CF: MicroOp = micro!(TO_CF, Value, Input::Undefined(0));

pub const UNDEFINED_PF: MicroOp = micro!(TO_PF, Value, Input::Undefined(1));

pub const UNDEFINED_AF: MicroOp = micro!(TO_AF, Value, Input::Undefined(2));

pub const UNDEFINED_ZF: MicroOp = micro!(TO_ZF, Value, Input::Undefined(3));

pub const UNDEFINED_SF: MicroOp = micro!(TO_SF, Value, Input::Undefined(4));

pub const UNDEFINED_OF: MicroOp = micro!(TO_OF, Value, Input::Undefined(5));

/// A flag that is 0, or 1, whatever the state.
pub const CF_IS_0: MicroOp = micro!(TO_CF, Value, ZERO);

pub const CF_IS_1: MicroOp = micro!(TO_CF, Value, ONE);

pub const OF_IS_0: MicroOp = micro!(TO_OF, Value, ZERO);

/// The row's beginning, the flags but CF of the sum of three inputs, whose value is that of micro-operation number
/// `$r`, and its end.
#[macro_export]
macro_rules! with_increment_flags {
    ([$($before:expr),*], ($x:expr, $y:expr, $z:expr, $r:expr), [$($after:expr),*]) => {
        [
            $($before,)*
            $crate::micro!($crate::terms::TO_PF, Parity, asm_core::Input::Earlier($r)),
            $crate::micro!($crate::terms::TO_AF, AuxiliaryCarry, $x, $y, $z),
            $crate::micro!($crate::terms::TO_ZF, IsZero, asm_core::Input::Earlier($r)),
            $crate::micro!($crate::terms::TO_SF, Sign, asm_core::Input::Earlier($r)),
            $crate::micro!($crate::terms::TO_OF, SumOverflow, $x, $y, $z),
            $($after,)*
        ]
    };
}

/// The same with all flags.
#[macro_export]
macro_rules! with_sum_flags {
    ([$($before:expr),*], ($x:expr, $y:expr, $z:expr, $r:expr)) => {
        $crate::with_increment_flags!(
            [$($before,)* $crate::micro!($crate::terms::TO_CF, Carry, $x, $y, $z)],
            ($x, $y, $z, $r),
            []
        )
    };
}

/// The row's beginning, the flags but CF of the first input less the two others, whose value is that of micro-operation
/// number `$r`, and its end.
#[macro_export]
macro_rules! with_decrement_flags {
    ([$($before:expr),*], ($x:expr, $y:expr, $z:expr, $r:expr), [$($after:expr),*]) => {
        [
            $($before,)*
            $crate::micro!($crate::terms::TO_PF, Parity, asm_core::Input::Earlier($r)),
            $crate::micro!($crate::terms::TO_AF, AuxiliaryBorrow, $x, $y, $z),
            $crate::micro!($crate::terms::TO_ZF, IsZero, asm_core::Input::Earlier($r)),
            $crate::micro!($crate::terms::TO_SF, Sign, asm_core::Input::Earlier($r)),
            $crate::micro!($crate::terms::TO_OF, DifferenceOverflow, $x, $y, $z),
            $($after,)*
        ]
    };
}

/// The same with all flags.
#[macro_export]
macro_rules! with_difference_flags {
    ([$($before:expr),*], ($x:expr, $y:expr, $z:expr, $r:expr), [$($after:expr),*]) => {
        $crate::with_decrement_flags!(
            [$($before,)* $crate::micro!($crate::terms::TO_CF, Borrow, $x, $y, $z)],
            ($x, $y, $z, $r),
            [$($after),*]
        )
    };
}

/// A bitwise operation, and the flags of its result.
#[macro_export]
macro_rules! with_logic_flags {
    ($op:expr) => {
        [
            $op,
            $crate::terms::CF_IS_0,
            $crate::micro!($crate::terms::TO_PF, Parity, asm_core::Input::Earlier(0)),
            $crate::terms::UNDEFINED_AF,
            $crate::micro!($crate::terms::TO_ZF, IsZero, asm_core::Input::Earlier(0)),
            $crate::micro!($crate::terms::TO_SF, Sign, asm_core::Input::Earlier(0)),
            $crate::terms::OF_IS_0
        ]
    };
}
