//! The table of names, as code reads it. It is the definition's, line by line.

ghost use Rattle.std.specs.Prelude.{◌≡◌};
ghost use Rattle.att_reader.specs.Table.{row_of};

use asm_core::{Allowed, NameRow, Op, Operation, Repeat, Slot, Suffixes, Width};

/// The place of an operand: what may stand there, and its size where it isn't the instruction's.
macro_rules! slot {
    ($allowed:ident) => {
        Some(Slot { allowed: Allowed::$allowed, width: None })
    };
    ($allowed:ident, $width:ident) => {
        Some(Slot { allowed: Allowed::$allowed, width: Some(Width::$width) })
    };
}

const R: Option<Slot> = slot!(Register);

const M: Option<Slot> = slot!(Memory);

const I: Option<Slot> = slot!(Number);

const RM: Option<Slot> = slot!(RegisterOrMemory);

const RI: Option<Slot> = slot!(RegisterOrNumber);

const RMI: Option<Slot> = slot!(RegisterMemoryOrNumber);

const RM_B: Option<Slot> = slot!(RegisterOrMemory, B);

const RM_W: Option<Slot> = slot!(RegisterOrMemory, W);
/// A number or `%cl`.
const C: Option<Slot> = slot!(Count);
/// A label.
const T: Option<Slot> = slot!(Label);

/// A row as the table keeps it. A constant of this length is built anew where it is used, and a static that holds arrays
/// of structs has no proof; so the places of the operands are a tuple here.
#[derive(Clone, Copy, Debug)]
pub struct NameEntry {
    name: [u8; 9],
    operation: Operation,
    suffixes: Suffixes,
    width: Option<Width>,
    slots: (Option<Slot>, Option<Slot>, Option<Slot>),
    lock: Option<u8>,
    rep: Option<Repeat>,
    compares: bool,
    left_out: bool,
}

impl NameEntry {
    /// The row.
    pub fn row(&self) -> NameRow
        ensures { result ≡ row_of self.now }
    {
        let (first, second, third) = self.slots;
        NameRow {
            name: self.name,
            operation: self.operation,
            suffixes: self.suffixes,
            width: self.width,
            slots: [first, second, third],
            lock: self.lock,
            rep: self.rep,
            compares: self.compares,
            left_out: self.left_out,
        }
    }
}

/// A row: name, operation, suffixes, size and operands; then the operand that `lock` wants in memory, what `rep` before it
/// means, that `repe` and `repne` may stand there, or that the form is left out.
macro_rules! row {
    ($name:expr, $operation:expr, $suffixes:ident, $width:expr, $slots:expr; plain) => {
        row!(@ $name, $operation, $suffixes, $width, $slots, None, None, false, false)
    };
    ($name:expr, $operation:expr, $suffixes:ident, $width:expr, $slots:expr; lock $operand:literal) => {
        row!(@ $name, $operation, $suffixes, $width, $slots, Some($operand), None, false, false)
    };
    ($name:expr, $operation:expr, $suffixes:ident, $width:expr, $slots:expr; lock $operand:literal left_out) => {
        row!(@ $name, $operation, $suffixes, $width, $slots, Some($operand), None, false, true)
    };
    ($name:expr, $operation:expr, $suffixes:ident, $width:expr, $slots:expr; left_out) => {
        row!(@ $name, $operation, $suffixes, $width, $slots, None, None, false, true)
    };
    ($name:expr, $operation:expr, $suffixes:ident, $width:expr, $slots:expr; rep $repeat:ident) => {
        row!(@ $name, $operation, $suffixes, $width, $slots, None, Some(Repeat::$repeat), false, false)
    };
    ($name:expr, $operation:expr, $suffixes:ident, $width:expr, $slots:expr; compares) => {
        row!(@ $name, $operation, $suffixes, $width, $slots, None, None, true, false)
    };
    (@ $name:expr, $operation:expr, $suffixes:ident, $width:expr, $slots:expr,
     $lock:expr, $rep:expr, $compares:expr, $left_out:expr) => {
        NameEntry {
            name: $name,
            operation: $operation,
            suffixes: Suffixes::$suffixes,
            width: $width,
            slots: $slots,
            lock: $lock,
            rep: $rep,
            compares: $compares,
            left_out: $left_out,
        }
    };
}

/// The whole table.
pub static NAMES: [NameEntry; 85] = [
    row!(*b"mov\0\0\0\0\0\0", Operation::Of(Op::Mov), Bwl, None, (RMI, RM, None); plain),
    row!(*b"movzbw\0\0\0", Operation::Of(Op::Movzbw), None, Some(Width::W), (RM_B, R, None); plain),
    row!(*b"movzbl\0\0\0", Operation::Of(Op::Movzbl), None, Some(Width::L), (RM_B, R, None); plain),
    row!(*b"movzwl\0\0\0", Operation::Of(Op::Movzwl), None, Some(Width::L), (RM_W, R, None); plain),
    row!(*b"movsbw\0\0\0", Operation::Of(Op::Movsbw), None, Some(Width::W), (RM_B, R, None); plain),
    row!(*b"movsbl\0\0\0", Operation::Of(Op::Movsbl), None, Some(Width::L), (RM_B, R, None); plain),
    row!(*b"movswl\0\0\0", Operation::Of(Op::Movswl), None, Some(Width::L), (RM_W, R, None); plain),
    row!(*b"lea\0\0\0\0\0\0", Operation::Of(Op::Lea), L, Some(Width::L), (M, R, None); plain),
    row!(*b"xchg\0\0\0\0\0", Operation::Of(Op::Xchg), Bwl, None, (R, RM, None); lock 1),
    row!(*b"xchg\0\0\0\0\0", Operation::Of(Op::Xchg), Bwl, None, (M, R, None); lock 0),
    row!(*b"push\0\0\0\0\0", Operation::Of(Op::Push), L, Some(Width::L), (RMI, None, None); plain),
    row!(*b"pop\0\0\0\0\0\0", Operation::Of(Op::Pop), L, Some(Width::L), (RM, None, None); plain),
    row!(*b"bswap\0\0\0\0", Operation::Of(Op::Bswap), L, Some(Width::L), (R, None, None); plain),
    row!(*b"cmov\0\0\0\0\0", Operation::Cmov, Wl, None, (RM, R, None); plain),
    row!(*b"set\0\0\0\0\0\0", Operation::Set, B, Some(Width::B), (RM, None, None); plain),
    row!(*b"cltd\0\0\0\0\0", Operation::Of(Op::Cltd), None, Some(Width::L), (None, None, None); plain),
    row!(*b"cwtl\0\0\0\0\0", Operation::Of(Op::Cwtl), None, Some(Width::L), (None, None, None); plain),
    row!(*b"nop\0\0\0\0\0\0", Operation::Of(Op::Nop), None, Some(Width::L), (None, None, None); rep No),
    row!(*b"pause\0\0\0\0", Operation::Of(Op::Nop), None, Some(Width::L), (None, None, None); plain),
    row!(*b"jmp\0\0\0\0\0\0", Operation::Of(Op::Jmp), None, Some(Width::L), (T, None, None); plain),
    row!(*b"j\0\0\0\0\0\0\0\0", Operation::Jump, None, Some(Width::L), (T, None, None); plain),
    row!(*b"jecxz\0\0\0\0", Operation::Of(Op::Jecxz), None, Some(Width::L), (T, None, None); plain),
    row!(*b"loop\0\0\0\0\0", Operation::Of(Op::Loop), None, Some(Width::L), (T, None, None); plain),
    row!(*b"add\0\0\0\0\0\0", Operation::Of(Op::Add), Bwl, None, (RMI, RM, None); lock 1),
    row!(*b"sub\0\0\0\0\0\0", Operation::Of(Op::Sub), Bwl, None, (RMI, RM, None); lock 1),
    row!(*b"adc\0\0\0\0\0\0", Operation::Of(Op::Adc), Bwl, None, (RMI, RM, None); lock 1),
    row!(*b"sbb\0\0\0\0\0\0", Operation::Of(Op::Sbb), Bwl, None, (RMI, RM, None); lock 1),
    row!(*b"cmp\0\0\0\0\0\0", Operation::Of(Op::Cmp), Bwl, None, (RMI, RM, None); plain),
    row!(*b"and\0\0\0\0\0\0", Operation::Of(Op::And), Bwl, None, (RMI, RM, None); lock 1),
    row!(*b"or\0\0\0\0\0\0\0", Operation::Of(Op::Or), Bwl, None, (RMI, RM, None); lock 1),
    row!(*b"xor\0\0\0\0\0\0", Operation::Of(Op::Xor), Bwl, None, (RMI, RM, None); lock 1),
    row!(*b"test\0\0\0\0\0", Operation::Of(Op::Test), Bwl, None, (RMI, RM, None); plain),
    row!(*b"neg\0\0\0\0\0\0", Operation::Of(Op::Neg), Bwl, None, (RM, None, None); lock 0),
    row!(*b"not\0\0\0\0\0\0", Operation::Of(Op::Not), Bwl, None, (RM, None, None); lock 0),
    row!(*b"inc\0\0\0\0\0\0", Operation::Of(Op::Inc), Bwl, None, (RM, None, None); lock 0),
    row!(*b"dec\0\0\0\0\0\0", Operation::Of(Op::Dec), Bwl, None, (RM, None, None); lock 0),
    row!(*b"mul\0\0\0\0\0\0", Operation::Of(Op::Mul), Bwl, None, (RM, None, None); plain),
    row!(*b"imul\0\0\0\0\0", Operation::Of(Op::Imul), Bwl, None, (RM, None, None); plain),
    row!(*b"imul\0\0\0\0\0", Operation::Of(Op::Imul), Wl, None, (RM, R, None); plain),
    row!(*b"imul\0\0\0\0\0", Operation::Of(Op::Imul), Wl, None, (I, RM, R); plain),
    row!(*b"div\0\0\0\0\0\0", Operation::Of(Op::Div), Bwl, None, (RM, None, None); plain),
    row!(*b"idiv\0\0\0\0\0", Operation::Of(Op::Idiv), Bwl, None, (RM, None, None); plain),
    row!(*b"clc\0\0\0\0\0\0", Operation::Of(Op::Clc), None, Some(Width::L), (None, None, None); plain),
    row!(*b"stc\0\0\0\0\0\0", Operation::Of(Op::Stc), None, Some(Width::L), (None, None, None); plain),
    row!(*b"cmc\0\0\0\0\0\0", Operation::Of(Op::Cmc), None, Some(Width::L), (None, None, None); plain),
    row!(*b"shl\0\0\0\0\0\0", Operation::Of(Op::Shl), Bwl, None, (C, RM, None); plain),
    row!(*b"shl\0\0\0\0\0\0", Operation::Of(Op::Shl), Bwl, None, (RM, None, None); plain),
    row!(*b"sal\0\0\0\0\0\0", Operation::Of(Op::Shl), Bwl, None, (C, RM, None); plain),
    row!(*b"sal\0\0\0\0\0\0", Operation::Of(Op::Shl), Bwl, None, (RM, None, None); plain),
    row!(*b"shr\0\0\0\0\0\0", Operation::Of(Op::Shr), Bwl, None, (C, RM, None); plain),
    row!(*b"shr\0\0\0\0\0\0", Operation::Of(Op::Shr), Bwl, None, (RM, None, None); plain),
    row!(*b"sar\0\0\0\0\0\0", Operation::Of(Op::Sar), Bwl, None, (C, RM, None); plain),
    row!(*b"sar\0\0\0\0\0\0", Operation::Of(Op::Sar), Bwl, None, (RM, None, None); plain),
    row!(*b"rol\0\0\0\0\0\0", Operation::Of(Op::Rol), Bwl, None, (C, RM, None); plain),
    row!(*b"rol\0\0\0\0\0\0", Operation::Of(Op::Rol), Bwl, None, (RM, None, None); plain),
    row!(*b"ror\0\0\0\0\0\0", Operation::Of(Op::Ror), Bwl, None, (C, RM, None); plain),
    row!(*b"ror\0\0\0\0\0\0", Operation::Of(Op::Ror), Bwl, None, (RM, None, None); plain),
    row!(*b"shld\0\0\0\0\0", Operation::Of(Op::Shld), L, Some(Width::L), (C, R, RM); plain),
    row!(*b"shrd\0\0\0\0\0", Operation::Of(Op::Shrd), L, Some(Width::L), (C, R, RM); plain),
    row!(*b"bsf\0\0\0\0\0\0", Operation::Of(Op::Bsf), Wl, None, (RM, R, None); plain),
    row!(*b"bsr\0\0\0\0\0\0", Operation::Of(Op::Bsr), Wl, None, (RM, R, None); plain),
    row!(*b"bt\0\0\0\0\0\0\0", Operation::Of(Op::Bt), Wl, None, (RI, R, None); plain),
    row!(*b"bt\0\0\0\0\0\0\0", Operation::Of(Op::Bt), Wl, None, (I, M, None); plain),
    row!(*b"bt\0\0\0\0\0\0\0", Operation::Of(Op::Bt), Wl, None, (R, M, None); left_out),
    row!(*b"bts\0\0\0\0\0\0", Operation::Of(Op::Bts), Wl, None, (RI, R, None); plain),
    row!(*b"bts\0\0\0\0\0\0", Operation::Of(Op::Bts), Wl, None, (I, M, None); lock 1),
    row!(*b"bts\0\0\0\0\0\0", Operation::Of(Op::Bts), Wl, None, (R, M, None); lock 1 left_out),
    row!(*b"btr\0\0\0\0\0\0", Operation::Of(Op::Btr), Wl, None, (RI, R, None); plain),
    row!(*b"btr\0\0\0\0\0\0", Operation::Of(Op::Btr), Wl, None, (I, M, None); lock 1),
    row!(*b"btr\0\0\0\0\0\0", Operation::Of(Op::Btr), Wl, None, (R, M, None); lock 1 left_out),
    row!(*b"btc\0\0\0\0\0\0", Operation::Of(Op::Btc), Wl, None, (RI, R, None); plain),
    row!(*b"btc\0\0\0\0\0\0", Operation::Of(Op::Btc), Wl, None, (I, M, None); lock 1),
    row!(*b"btc\0\0\0\0\0\0", Operation::Of(Op::Btc), Wl, None, (R, M, None); lock 1 left_out),
    row!(*b"movs\0\0\0\0\0", Operation::Of(Op::Movs), Bwl, None, (None, None, None); rep Rep),
    row!(*b"stos\0\0\0\0\0", Operation::Of(Op::Stos), Bwl, None, (None, None, None); rep Rep),
    row!(*b"lods\0\0\0\0\0", Operation::Of(Op::Lods), Bwl, None, (None, None, None); rep Rep),
    row!(*b"cmps\0\0\0\0\0", Operation::Of(Op::Cmps), Bwl, None, (None, None, None); compares),
    row!(*b"scas\0\0\0\0\0", Operation::Of(Op::Scas), Bwl, None, (None, None, None); compares),
    row!(*b"cld\0\0\0\0\0\0", Operation::Of(Op::Cld), None, Some(Width::L), (None, None, None); plain),
    row!(*b"std\0\0\0\0\0\0", Operation::Of(Op::Std), None, Some(Width::L), (None, None, None); plain),
    row!(*b"xadd\0\0\0\0\0", Operation::Of(Op::Xadd), Bwl, None, (R, RM, None); lock 1),
    row!(*b"cmpxchg\0\0", Operation::Of(Op::Cmpxchg), Bwl, None, (R, RM, None); lock 1),
    row!(*b"cmpxchg8b", Operation::Of(Op::Cmpxchg8b), None, Some(Width::Q), (M, None, None); lock 0),
    row!(*b"cpuid\0\0\0\0", Operation::Of(Op::Cpuid), None, Some(Width::L), (None, None, None); plain),
    row!(*b"rdtsc\0\0\0\0", Operation::Of(Op::Rdtsc), None, Some(Width::L), (None, None, None); plain),
];
