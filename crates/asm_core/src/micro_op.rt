use crate::{Flag, Reg, Slice};

/// The bytes of an operand or a register that a micro-operation reads or writes, the lowest being byte 0.
#[derive(Clone, Copy, Debug, PartialEq, Eq)]
pub enum Bytes {
    /// As many as the instruction's width says, from the lowest on; of a register operand those that its name names.
    Whole,
    Byte0,
    Byte1,
    Byte2,
    Byte3,
    /// Bytes 0 and 1.
    Low16,
    /// Bytes 2 and 3.
    High16,
    /// Bytes 1 to 3.
    Upper24,
    /// Bytes 0 to 3.
    All,
}

/// What a row reads and writes, before it is known which operands the instruction has.
#[derive(Clone, Copy, Debug, PartialEq, Eq)]
pub enum Site {
    /// The operand of that number, from 0 in the order in which operands are written.
    Argument(u8, Bytes),
    /// A register that the instruction uses unasked.
    Register(Reg, Bytes),
    /// The memory at the address in the register, as many bytes as the instruction's width says.
    Pointed(Reg),
    Flag(Flag),
}

/// An input of a micro-operation.
#[derive(Clone, Copy, Debug, PartialEq, Eq)]
pub enum Input {
    /// What the site holds before the instruction.
    Read(Site),
    /// The same of the site that the micro-operation writes: what is left there. It makes no access of its own.
    Kept(Site),
    /// The address of the memory operand of that number.
    Address(u8),
    /// The pushed word on top.
    Top,
    /// Undefined bits: those of the choice from that bit on.
    Undefined(u8),
    /// The word of that number among those that come from outside.
    Outside(u8),
    /// The value of the micro-operation of that number, an earlier one of the row, from 0.
    Earlier(u8),
    Number(u32),
}

/// What becomes of the value of a micro-operation.
#[derive(Clone, Copy, Debug, PartialEq, Eq)]
pub enum Target {
    /// Later micro-operations of the row use it.
    Temporary,
    /// It is written to the site, cut to the site's bytes.
    Site(Site),
    /// It is pushed.
    Push,
    /// The word on top is taken away; the value is of no use.
    Pop,
    /// Where it isn't 0, the instruction goes on at its goal.
    Jump,
    /// Where it isn't 0, the instruction is done once more.
    Stay,
    /// Where it is 0, the instruction is over: it makes no access and changes nothing.
    Turn,
    /// Where it isn't 0, the instruction is a division that can't be done.
    Divide,
    /// The memory operand of that number is loaded and stored, and keeps its value; the value is of no use.
    Touch(u8),
}

/// What a micro-operation computes from its inputs x, y and z (Intel SDM volume 2, each under the instruction that it is
/// named after). `specs/Function` has each as a formula on whole numbers.
#[derive(Clone, Copy, Debug, PartialEq, Eq)]
pub enum Function {
    /// x, byte for byte.
    Copy,
    /// x, computed; y and z are what it depends on besides.
    Value,
    /// The number x, which the instruction sets.
    Set,
    /// y where x isn't 0, else z.
    Pick,
    /// 1 where x is 0, else 0.
    IsZero,
    /// 1 where x isn't 0, else 0.
    IsNonZero,
    /// The top bit of x.
    Sign,
    /// 1 where the low 8 bits of x have an even count of ones, else 0.
    Parity,
    /// x + y + the carry z.
    Sum,
    /// The carry out of the top of x + y + z.
    Carry,
    /// The carry out of bit 3 of x + y + z.
    AuxiliaryCarry,
    /// 1 where the signed sum x + y + z doesn't fit.
    SumOverflow,
    /// x - y - the borrow z.
    Difference,
    /// The borrow of x - y - z.
    Borrow,
    /// The borrow out of bit 4 of x - y - z.
    AuxiliaryBorrow,
    /// 1 where the signed difference x - y - z doesn't fit.
    DifferenceOverflow,
    And,
    Or,
    Xor,
    Not,
    /// The low half of x times y.
    ProductLow,
    /// The high half of x times y.
    ProductHigh,
    /// The high half of x times y, both signed.
    SignedProductHigh,
    /// The number whose halves are x and y, x the high one, by z.
    Quotient,
    Remainder,
    /// 1 where z is 0 or the quotient doesn't fit.
    QuotientOverflow,
    /// The same with signed numbers, the quotient cut towards 0.
    SignedQuotient,
    SignedRemainder,
    SignedQuotientOverflow,
    /// All bits as the top bit of x.
    SignFill,
    /// All bits as bit 7 of x.
    SignFill8,
    /// All bits as bit 15 of x.
    SignFill16,
    /// The count of a shift: the low 5 bits of x.
    Count,
    /// 1 where the count x is 1.
    CountIsOne,
    /// 1 where the count x is below the width.
    CountBelowWidth,
    /// 1 where the count x is 0 or no multiple of the width.
    CountTurns,
    /// x shifted left by the count y.
    ShiftLeft,
    ShiftRight,
    ShiftArithmeticRight,
    /// The last bit that leaves x when it is shifted left by the count y.
    OutLeft,
    OutRight,
    OutArithmeticRight,
    /// x shifted left by the count z, with bits from the top of y.
    ShiftDoubleLeft,
    /// x shifted right by the count z, with bits from the bottom of y.
    ShiftDoubleRight,
    RotateLeft,
    RotateRight,
    /// 1 where the two top bits of x differ.
    TopBitsDiffer,
    /// The least index of a bit of x that is 1.
    ScanForward,
    /// The greatest one.
    ScanReverse,
    /// The bit of x at y, modulo the width.
    Bit,
    /// x with that bit 1.
    BitSet,
    /// x with that bit 0.
    BitReset,
    /// x with that bit inverted.
    BitComplement,
    /// The index register x after an element: up by its size, down where y is 1.
    IndexStep,
    /// One less than the register x, of 32 bits: what is left of a count.
    CountDown,
    /// The number whose halves are x and y, x the low one, each of 32 bits.
    Join,
    /// The upper half of x, of 64 bits.
    UpperHalf,
}

/// One step of a row: the target takes what the function gives of the three inputs.
#[derive(Clone, Copy, Debug, PartialEq, Eq)]
pub struct MicroOp {
    pub target: Target,
    pub function: Function,
    pub x: Input,
    pub y: Input,
    pub z: Input,
}

/// Where the value of a micro-operation goes in a state. It is fixed before anything is written.
#[derive(Clone, Copy, Debug, PartialEq, Eq)]
pub enum Destination {
    Nowhere,
    Register(Reg, Bytes),
    /// The address, and how many bytes.
    Memory(u32, u8),
    Flag(Flag),
    /// The word of that number of the scratch, which gets pushed.
    Push(u32),
    /// The words that are pushed, of which the last is taken away.
    Pop(u32),
}

impl Default for MicroOp {
    fn default() -> Self {
        MicroOp {
            target: Target::Temporary,
            function: Function::Value,
            x: Input::Number(0),
            y: Input::Number(0),
            z: Input::Number(0),
        }
    }
}

impl Default for Destination {
    fn default() -> Self {
        Destination::Nowhere
    }
}

impl Default for Fact {
    fn default() -> Self {
        Fact {
            known: None,
            names: 0,
        }
    }
}

/// What a row can name, with all its bytes. The order is that of `specs/Entries`.
#[derive(Clone, Copy, Debug, PartialEq, Eq)]
pub enum Origin {
    Argument(u8),
    Address(u8),
    Pointed(Reg),
    Register(Reg, Slice),
    Flag(Flag),
    Top,
    Undefined,
    Outside,
}

/// What is known of a value before any state is: the value itself, if it is a number, and what it depends on, as bits by
/// rank of `Origin`.
#[derive(Clone, Copy, Debug, PartialEq, Eq)]
pub struct Fact {
    pub known: Option<u64>,
    pub names: u64,
}
