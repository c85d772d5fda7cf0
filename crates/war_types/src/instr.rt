//! One instruction of the machine, as the 1994 draft standard writes it.

ghost use Rattle.std.specs.{Prelude.{◌≡◌, IfSome}, Int.bytes_high_first};

/// The sixteen operations. `CMP` is another spelling of `Seq`, and `Mdl` is `MOD`.
#[derive(Clone, Copy, Debug, PartialEq, Eq)]
pub enum Op {
    Dat,
    Mov,
    Add,
    Sub,
    Mul,
    Div,
    Mdl,
    Jmp,
    Jmz,
    Jmn,
    Djn,
    Seq,
    Sne,
    Slt,
    Spl,
    Nop,
}

impl Op {
    ghost use Rattle.war_types.specs.{declared.instr.Op.Op, Bytes.op_code};

    /// The operation's number, from 0 on in the order of the type.
    pub fn code(self) -> u8
        ensures { result ≡ op_code self }
    {
        match self {
            Op::Dat => 0,
            Op::Mov => 1,
            Op::Add => 2,
            Op::Sub => 3,
            Op::Mul => 4,
            Op::Div => 5,
            Op::Mdl => 6,
            Op::Jmp => 7,
            Op::Jmz => 8,
            Op::Jmn => 9,
            Op::Djn => 10,
            Op::Seq => 11,
            Op::Sne => 12,
            Op::Slt => 13,
            Op::Spl => 14,
            Op::Nop => 15,
        }
    }

    fn from_code(code: u8) -> Option<Op>
        ensures some { IfSome result (λ op. op_code op ≡ code) }
        ensures every { (op : Op) → op_code op ≡ code → result ≡ Some op }
    {
        match code {
            0 => Some(Op::Dat),
            1 => Some(Op::Mov),
            2 => Some(Op::Add),
            3 => Some(Op::Sub),
            4 => Some(Op::Mul),
            5 => Some(Op::Div),
            6 => Some(Op::Mdl),
            7 => Some(Op::Jmp),
            8 => Some(Op::Jmz),
            9 => Some(Op::Jmn),
            10 => Some(Op::Djn),
            11 => Some(Op::Seq),
            12 => Some(Op::Sne),
            13 => Some(Op::Slt),
            14 => Some(Op::Spl),
            15 => Some(Op::Nop),
            _ => None,
        }
    }
}

/// Which fields of its operands an instruction works on.
#[derive(Clone, Copy, Debug, PartialEq, Eq)]
pub enum Modifier {
    A,
    B,
    AB,
    BA,
    F,
    X,
    I,
}

impl Modifier {
    ghost use Rattle.war_types.specs.{declared.instr.Modifier.Modifier, Bytes.modifier_code};

    /// The modifier's number, from 0 on in the order of the type.
    pub fn code(self) -> u8
        ensures { result ≡ modifier_code self }
    {
        match self {
            Modifier::A => 0,
            Modifier::B => 1,
            Modifier::AB => 2,
            Modifier::BA => 3,
            Modifier::F => 4,
            Modifier::X => 5,
            Modifier::I => 6,
        }
    }

    fn from_code(code: u8) -> Option<Modifier>
        ensures some { IfSome result (λ modifier. modifier_code modifier ≡ code) }
        ensures every { (modifier : Modifier) → modifier_code modifier ≡ code → result ≡ Some modifier }
    {
        match code {
            0 => Some(Modifier::A),
            1 => Some(Modifier::B),
            2 => Some(Modifier::AB),
            3 => Some(Modifier::BA),
            4 => Some(Modifier::F),
            5 => Some(Modifier::X),
            6 => Some(Modifier::I),
            _ => None,
        }
    }
}

/// How an operand's number leads to a cell.
#[derive(Clone, Copy, Debug, PartialEq, Eq)]
pub enum Mode {
    /// `#`
    Immediate,
    /// `$`
    Direct,
    /// `*`
    AIndirect,
    /// `@`
    BIndirect,
    /// `{`
    APre,
    /// `<`
    BPre,
    /// `}`
    APost,
    /// `>`
    BPost,
}

impl Mode {
    ghost use Rattle.war_types.specs.{declared.instr.Mode.Mode, Bytes.mode_code};

    /// The mode's number, from 0 on in the order of the type.
    pub fn code(self) -> u8
        ensures { result ≡ mode_code self }
    {
        match self {
            Mode::Immediate => 0,
            Mode::Direct => 1,
            Mode::AIndirect => 2,
            Mode::BIndirect => 3,
            Mode::APre => 4,
            Mode::BPre => 5,
            Mode::APost => 6,
            Mode::BPost => 7,
        }
    }

    fn from_code(code: u8) -> Option<Mode>
        ensures some { IfSome result (λ mode. mode_code mode ≡ code) }
        ensures every { (mode : Mode) → mode_code mode ≡ code → result ≡ Some mode }
    {
        match code {
            0 => Some(Mode::Immediate),
            1 => Some(Mode::Direct),
            2 => Some(Mode::AIndirect),
            3 => Some(Mode::BIndirect),
            4 => Some(Mode::APre),
            5 => Some(Mode::BPre),
            6 => Some(Mode::APost),
            7 => Some(Mode::BPost),
            _ => None,
        }
    }
}

/// An instruction: an operation, a modifier, and two operands of a mode and a number. In a core of M cells
/// each number is 0 to M-1; a warrior that fits the settings of that core has no others.
#[derive(Clone, Copy, Debug, PartialEq, Eq)]
pub struct Instr {
    pub op: Op,
    pub modifier: Modifier,
    pub a_mode: Mode,
    pub a: u16,
    pub b_mode: Mode,
    pub b: u16,
}

impl Instr {
    ghost use Rattle.war_types.specs.{declared.instr.Instr.Instr, Bytes.instr_bytes, Warrior.HasNumbersBelow};

    /// The instruction as it is stored: the numbers of its operation, its modifier, its A mode and its B mode, a byte each, then its
    /// A number and its B number, two bytes each with the higher one first.
    pub fn to_bytes(&self) -> [u8; 8]
        ensures { result ≡ instr_bytes self.now }
    {
        let [a_high, a_low] = high_first(self.a);
        let [b_high, b_low] = high_first(self.b);
        [
            self.op.code(),
            self.modifier.code(),
            self.a_mode.code(),
            self.b_mode.code(),
            a_high,
            a_low,
            b_high,
            b_low,
        ]
    }

    /// The instruction that is stored in these bytes, if both of its numbers are below the core size. Other bytes are no instruction's.
    pub fn from_bytes(bytes: &[u8; 8], core: u16) -> Option<Instr>
        ensures some { IfSome result (λ i. (bytes.now ≡ instr_bytes i) × HasNumbersBelow core i) }
        ensures every { (i : Instr) → HasNumbersBelow core i → bytes.now ≡ instr_bytes i → result ≡ Some i }
    {
        let instr = Instr {
            op: Op::from_code(bytes[0])?,
            modifier: Modifier::from_code(bytes[1])?,
            a_mode: Mode::from_code(bytes[2])?,
            a: u16::from_be_bytes([bytes[4], bytes[5]]),
            b_mode: Mode::from_code(bytes[3])?,
            b: u16::from_be_bytes([bytes[6], bytes[7]]),
        };
        if instr.a < core && instr.b < core {
            Some(instr)
        } else {
            None
        }
    }
}

fn high_first(number: u16) -> [u8; 2]
    ensures { result ≡ bytes_high_first 2 number }
{
    number.to_be_bytes()
}
