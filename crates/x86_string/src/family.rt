ghost use Rattle.x86_string.specs.Strings.{is_string};

use asm_core::{Input, MicroOp, Op, Reg, Site, Target, Width};
use x86_rows::terms::{
    ACCUMULATOR, DF, EDI, ESI, ONE, TO_ACCUMULATOR, TO_DF, TO_EDI, TO_ESI, ZERO,
};
use x86_rows::{Family, FamilyRow, micro, with_difference_flags};

/// The element at the address in esi, or in edi.
const AT_ESI: Input = Input::Read(Site::Pointed(Reg::Esi));

const AT_EDI: Input = Input::Read(Site::Pointed(Reg::Edi));

const TO_AT_EDI: Target = Target::Site(Site::Pointed(Reg::Edi));

/// The register goes on by an element, downwards where DF is set.
const STEP_ESI: MicroOp = micro!(TO_ESI, IndexStep, ESI, DF);

const STEP_EDI: MicroOp = micro!(TO_EDI, IndexStep, EDI, DF);

const MOVS: [MicroOp; 3] = [micro!(TO_AT_EDI, Value, AT_ESI), STEP_ESI, STEP_EDI];

const STOS: [MicroOp; 2] = [micro!(TO_AT_EDI, Value, ACCUMULATOR), STEP_EDI];

const LODS: [MicroOp; 2] = [micro!(TO_ACCUMULATOR, Value, AT_ESI), STEP_ESI];

const CMPS: [MicroOp; 9] = with_difference_flags!(
    [micro!(Target::Temporary, Difference, AT_ESI, AT_EDI)],
    (AT_ESI, AT_EDI, ZERO, 0),
    [STEP_ESI, STEP_EDI]
);

const SCAS: [MicroOp; 8] = with_difference_flags!(
    [micro!(Target::Temporary, Difference, ACCUMULATOR, AT_EDI)],
    (ACCUMULATOR, AT_EDI, ZERO, 0),
    [STEP_EDI]
);

const CLD: [MicroOp; 1] = [micro!(TO_DF, Set, ZERO)];

const STD: [MicroOp; 1] = [micro!(TO_DF, Set, ONE)];

/// String instructions.
#[derive(Clone, Copy)]
pub struct Strings;

/// What string instructions do.
pub type StringRow = FamilyRow<Strings>;

impl Family for Strings {
    ghost has = { is_string };

    fn row<'a>(op: Op, _width: Width, _operands: usize) -> &'a [MicroOp] {
        match op {
            Op::Movs => &MOVS,
            Op::Stos => &STOS,
            Op::Lods => &LODS,
            Op::Cmps => &CMPS,
            Op::Scas => &SCAS,
            Op::Cld => &CLD,
            Op::Std => &STD,
            _ => &[],
        }
    }
}
