ghost use Rattle.std.specs.Prelude.{◌≡◌, ◌≤◌, length};
ghost use Rattle.asm_core.specs.Table.Moves.{cmov_row, set_row, jump_row};

use asm_core::{Cond, Input, MicroOp, Target};
use x86_rows::micro;
use x86_rows::terms::{CF, FIRST, OF, PF, SECOND, SF, TO_FIRST, TO_SECOND, ZERO, ZF};

/// Whether two flags differ or a third is 1, by a last test of that, and a micro-operation by it.
macro_rules! where_flags {
    ($a:expr, $b:expr, $c:expr, $test:ident, $last:expr) => {
        &[
            micro!(Target::Temporary, Xor, $a, $b),
            micro!(Target::Temporary, Or, $c, Input::Earlier(0)),
            micro!(Target::Temporary, $test, Input::Earlier(1)),
            $last
        ]
    };
}

/// The condition's three micro-operations, and a fourth by what they give.
macro_rules! where_condition {
    ($condition:expr, $last:expr) => {
        match $condition {
            Cond::O => where_flags!(ZERO, ZERO, OF, Value, $last),
            Cond::No => where_flags!(ZERO, ZERO, OF, IsZero, $last),
            Cond::B => where_flags!(ZERO, ZERO, CF, Value, $last),
            Cond::Ae => where_flags!(ZERO, ZERO, CF, IsZero, $last),
            Cond::E => where_flags!(ZERO, ZERO, ZF, Value, $last),
            Cond::Ne => where_flags!(ZERO, ZERO, ZF, IsZero, $last),
            Cond::Be => where_flags!(CF, ZERO, ZF, Value, $last),
            Cond::A => where_flags!(CF, ZERO, ZF, IsZero, $last),
            Cond::S => where_flags!(ZERO, ZERO, SF, Value, $last),
            Cond::Ns => where_flags!(ZERO, ZERO, SF, IsZero, $last),
            Cond::P => where_flags!(ZERO, ZERO, PF, Value, $last),
            Cond::Np => where_flags!(ZERO, ZERO, PF, IsZero, $last),
            Cond::L => where_flags!(SF, OF, ZERO, Value, $last),
            Cond::Ge => where_flags!(SF, OF, ZERO, IsZero, $last),
            Cond::Le => where_flags!(SF, OF, ZF, Value, $last),
            Cond::G => where_flags!(SF, OF, ZF, IsZero, $last),
        }
    };
}

/// `cmovCC`: the destination takes the source where the condition holds.
pub fn cmov<'a>(condition: Cond) -> &'a [MicroOp]
    ensures is { result.now ≡ cmov_row condition }
    ensures few { length result.now ≤ 18 }
{
    where_condition!(
        condition,
        micro!(TO_SECOND, Pick, Input::Earlier(2), FIRST, SECOND)
    )
}

/// `setCC`: the destination is whether the condition holds.
pub fn set<'a>(condition: Cond) -> &'a [MicroOp]
    ensures is { result.now ≡ set_row condition }
    ensures few { length result.now ≤ 18 }
{
    where_condition!(condition, micro!(TO_FIRST, Value, Input::Earlier(2)))
}

/// `jCC`: a jump where the condition holds.
pub fn jump<'a>(condition: Cond) -> &'a [MicroOp]
    ensures is { result.now ≡ jump_row condition }
    ensures few { length result.now ≤ 18 }
{
    where_condition!(condition, micro!(Target::Jump, Value, Input::Earlier(2)))
}
