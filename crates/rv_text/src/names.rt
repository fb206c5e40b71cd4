//! The mnemonics, by what operands stand behind them.

ghost use Rattle.std.specs.Prelude.{◌≡◌, string_bytes};
ghost use Rattle.rv_text.specs.Names.{upper_name, branch_name, address_name, store_name, shift_name, number_name, registers_name, bare_name, upper_named, branch_named, address_named, store_named, shift_named, number_named, registers_named, bare_named, more_registers_named};

/// Mnemonics with these operands: a register and the upper 20 bits.
#[derive(Clone, Copy, PartialEq, Eq, Debug)]
pub enum UpperName {
    Lui,
    Auipc,
}

impl UpperName {
    /// The mnemonic, in lower case.
    pub fn text(self) -> &'static str
        ensures { result.now ≡ upper_name self }
    {
        match self {
            UpperName::Lui => "lui",
            UpperName::Auipc => "auipc",
        }
    }

    /// The name of this text; None where none has it.
    pub fn of(text: &[u8]) -> Option<UpperName>
        ensures { result ≡ upper_named text.now }
    {
        if text == b"lui".as_slice() {
            Some(UpperName::Lui)
        } else if text == b"auipc".as_slice() {
            Some(UpperName::Auipc)
        } else {
            None
        }
    }
}

/// Mnemonics with these operands: two registers and how far it goes.
#[derive(Clone, Copy, PartialEq, Eq, Debug)]
pub enum BranchName {
    Beq,
    Bne,
    Blt,
    Bge,
    Bltu,
    Bgeu,
}

impl BranchName {
    /// The mnemonic, in lower case.
    pub fn text(self) -> &'static str
        ensures { result.now ≡ branch_name self }
    {
        match self {
            BranchName::Beq => "beq",
            BranchName::Bne => "bne",
            BranchName::Blt => "blt",
            BranchName::Bge => "bge",
            BranchName::Bltu => "bltu",
            BranchName::Bgeu => "bgeu",
        }
    }

    /// The name of this text; None where none has it.
    pub fn of(text: &[u8]) -> Option<BranchName>
        ensures { result ≡ branch_named text.now }
    {
        if text == b"beq".as_slice() {
            Some(BranchName::Beq)
        } else if text == b"bne".as_slice() {
            Some(BranchName::Bne)
        } else if text == b"blt".as_slice() {
            Some(BranchName::Blt)
        } else if text == b"bge".as_slice() {
            Some(BranchName::Bge)
        } else if text == b"bltu".as_slice() {
            Some(BranchName::Bltu)
        } else if text == b"bgeu".as_slice() {
            Some(BranchName::Bgeu)
        } else {
            None
        }
    }
}

/// Mnemonics with these operands: a register that is written, and an address: a load, or a jump to a register.
#[derive(Clone, Copy, PartialEq, Eq, Debug)]
pub enum AddressName {
    Jalr,
    Lb,
    Lh,
    Lw,
    Lbu,
    Lhu,
}

impl AddressName {
    /// The mnemonic, in lower case.
    pub fn text(self) -> &'static str
        ensures { result.now ≡ address_name self }
    {
        match self {
            AddressName::Jalr => "jalr",
            AddressName::Lb => "lb",
            AddressName::Lh => "lh",
            AddressName::Lw => "lw",
            AddressName::Lbu => "lbu",
            AddressName::Lhu => "lhu",
        }
    }

    /// The name of this text; None where none has it.
    pub fn of(text: &[u8]) -> Option<AddressName>
        ensures { result ≡ address_named text.now }
    {
        if text == b"jalr".as_slice() {
            Some(AddressName::Jalr)
        } else if text == b"lb".as_slice() {
            Some(AddressName::Lb)
        } else if text == b"lh".as_slice() {
            Some(AddressName::Lh)
        } else if text == b"lw".as_slice() {
            Some(AddressName::Lw)
        } else if text == b"lbu".as_slice() {
            Some(AddressName::Lbu)
        } else if text == b"lhu".as_slice() {
            Some(AddressName::Lhu)
        } else {
            None
        }
    }
}

/// Mnemonics with these operands: a register that is stored, and an address.
#[derive(Clone, Copy, PartialEq, Eq, Debug)]
pub enum StoreName {
    Sb,
    Sh,
    Sw,
}

impl StoreName {
    /// The mnemonic, in lower case.
    pub fn text(self) -> &'static str
        ensures { result.now ≡ store_name self }
    {
        match self {
            StoreName::Sb => "sb",
            StoreName::Sh => "sh",
            StoreName::Sw => "sw",
        }
    }

    /// The name of this text; None where none has it.
    pub fn of(text: &[u8]) -> Option<StoreName>
        ensures { result ≡ store_named text.now }
    {
        if text == b"sb".as_slice() {
            Some(StoreName::Sb)
        } else if text == b"sh".as_slice() {
            Some(StoreName::Sh)
        } else if text == b"sw".as_slice() {
            Some(StoreName::Sw)
        } else {
            None
        }
    }
}

/// Mnemonics with these operands: two registers and by how many bits it shifts.
#[derive(Clone, Copy, PartialEq, Eq, Debug)]
pub enum ShiftName {
    Slli,
    Srli,
    Srai,
}

impl ShiftName {
    /// The mnemonic, in lower case.
    pub fn text(self) -> &'static str
        ensures { result.now ≡ shift_name self }
    {
        match self {
            ShiftName::Slli => "slli",
            ShiftName::Srli => "srli",
            ShiftName::Srai => "srai",
        }
    }

    /// The name of this text; None where none has it.
    pub fn of(text: &[u8]) -> Option<ShiftName>
        ensures { result ≡ shift_named text.now }
    {
        if text == b"slli".as_slice() {
            Some(ShiftName::Slli)
        } else if text == b"srli".as_slice() {
            Some(ShiftName::Srli)
        } else if text == b"srai".as_slice() {
            Some(ShiftName::Srai)
        } else {
            None
        }
    }
}

/// Mnemonics with these operands: two registers and a number of 12 bits with a sign.
#[derive(Clone, Copy, PartialEq, Eq, Debug)]
pub enum NumberName {
    Addi,
    Slti,
    Sltiu,
    Xori,
    Ori,
    Andi,
    Fence,
}

impl NumberName {
    /// The mnemonic, in lower case.
    pub fn text(self) -> &'static str
        ensures { result.now ≡ number_name self }
    {
        match self {
            NumberName::Addi => "addi",
            NumberName::Slti => "slti",
            NumberName::Sltiu => "sltiu",
            NumberName::Xori => "xori",
            NumberName::Ori => "ori",
            NumberName::Andi => "andi",
            NumberName::Fence => "fence",
        }
    }

    /// The name of this text; None where none has it.
    pub fn of(text: &[u8]) -> Option<NumberName>
        ensures { result ≡ number_named text.now }
    {
        if text == b"addi".as_slice() {
            Some(NumberName::Addi)
        } else if text == b"slti".as_slice() {
            Some(NumberName::Slti)
        } else if text == b"sltiu".as_slice() {
            Some(NumberName::Sltiu)
        } else if text == b"xori".as_slice() {
            Some(NumberName::Xori)
        } else if text == b"ori".as_slice() {
            Some(NumberName::Ori)
        } else if text == b"andi".as_slice() {
            Some(NumberName::Andi)
        } else if text == b"fence".as_slice() {
            Some(NumberName::Fence)
        } else {
            None
        }
    }
}

/// Mnemonics with these operands: three registers.
#[derive(Clone, Copy, PartialEq, Eq, Debug)]
pub enum RegistersName {
    Add,
    Sub,
    Sll,
    Slt,
    Sltu,
    Xor,
    Srl,
    Sra,
    Or,
    And,
    Mul,
    Mulh,
    Mulhsu,
    Mulhu,
    Div,
    Divu,
    Rem,
    Remu,
}

impl RegistersName {
    /// The mnemonic, in lower case.
    pub fn text(self) -> &'static str
        ensures { result.now ≡ registers_name self }
    {
        match self {
            RegistersName::Add => "add",
            RegistersName::Sub => "sub",
            RegistersName::Sll => "sll",
            RegistersName::Slt => "slt",
            RegistersName::Sltu => "sltu",
            RegistersName::Xor => "xor",
            RegistersName::Srl => "srl",
            RegistersName::Sra => "sra",
            RegistersName::Or => "or",
            RegistersName::And => "and",
            RegistersName::Mul => "mul",
            RegistersName::Mulh => "mulh",
            RegistersName::Mulhsu => "mulhsu",
            RegistersName::Mulhu => "mulhu",
            RegistersName::Div => "div",
            RegistersName::Divu => "divu",
            RegistersName::Rem => "rem",
            RegistersName::Remu => "remu",
        }
    }

    /// The name of this text; None where none has it.
    pub fn of(text: &[u8]) -> Option<RegistersName>
        ensures { result ≡ registers_named text.now }
    {
        if text == b"add".as_slice() {
            Some(RegistersName::Add)
        } else if text == b"sub".as_slice() {
            Some(RegistersName::Sub)
        } else if text == b"sll".as_slice() {
            Some(RegistersName::Sll)
        } else if text == b"slt".as_slice() {
            Some(RegistersName::Slt)
        } else if text == b"sltu".as_slice() {
            Some(RegistersName::Sltu)
        } else if text == b"xor".as_slice() {
            Some(RegistersName::Xor)
        } else if text == b"srl".as_slice() {
            Some(RegistersName::Srl)
        } else if text == b"sra".as_slice() {
            Some(RegistersName::Sra)
        } else if text == b"or".as_slice() {
            Some(RegistersName::Or)
        } else if text == b"and".as_slice() {
            Some(RegistersName::And)
        } else {
            more_registers(text)
        }
    }
}

/// Mnemonics with these operands: no operands.
#[derive(Clone, Copy, PartialEq, Eq, Debug)]
pub enum BareName {
    Ecall,
    Ebreak,
}

impl BareName {
    /// The mnemonic, in lower case.
    pub fn text(self) -> &'static str
        ensures { result.now ≡ bare_name self }
    {
        match self {
            BareName::Ecall => "ecall",
            BareName::Ebreak => "ebreak",
        }
    }

    /// The name of this text; None where none has it.
    pub fn of(text: &[u8]) -> Option<BareName>
        ensures { result ≡ bare_named text.now }
    {
        if text == b"ecall".as_slice() {
            Some(BareName::Ecall)
        } else if text == b"ebreak".as_slice() {
            Some(BareName::Ebreak)
        } else {
            None
        }
    }
}

// The products, quotients and remainders.
fn more_registers(text: &[u8]) -> Option<RegistersName>
    ensures { result ≡ more_registers_named text.now }
{
    if text == b"mul".as_slice() {
        Some(RegistersName::Mul)
    } else if text == b"mulh".as_slice() {
        Some(RegistersName::Mulh)
    } else if text == b"mulhsu".as_slice() {
        Some(RegistersName::Mulhsu)
    } else if text == b"mulhu".as_slice() {
        Some(RegistersName::Mulhu)
    } else if text == b"div".as_slice() {
        Some(RegistersName::Div)
    } else if text == b"divu".as_slice() {
        Some(RegistersName::Divu)
    } else if text == b"rem".as_slice() {
        Some(RegistersName::Rem)
    } else if text == b"remu".as_slice() {
        Some(RegistersName::Remu)
    } else {
        None
    }
}
