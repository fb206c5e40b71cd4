//! Blocks while they are made.

ghost use Rattle.std.specs.Prelude.{◌≡◌, ◌<◌, ◌≤◌, ◌+◌, ◌^◌, ◌-◌, [], ◌∷◌, IfOk, OnOk, length, min};
ghost use Rattle.pld_ast.specs.Resolve.{sign_of, joined, op2_of};
ghost use Rattle.fsm_ir.specs.Blocks.{by_three, by_two, by_sign, set_micro, load_micro, store_micro, read_micro, write_micro, op1_micros, op1_reg, op1_temps, op2_micro};
ghost use Rattle.fsm_ir.specs.Building.{made_in, grown, closed, aimed, operation1};

use crate::block::Block;
use fsm_core::{Micro, MicroOp, Next};
use pld_ast::{BinOp, Ty, UnOp};
use pld_base::NoMemory;
use std::alloc::Global;
use std::mem;

/// The blocks that are ended, the micros of the current block, and the next temporary. Blocks are
/// numbered in the order in which they end, so the current one's number is the count of the others.
#[derive(Drop)]
pub struct Builder {
    pub ended: Vec<Block>,
    pub micros: Vec<Micro>,
    pub temps: u16,
}

// A micro of three registers.
fn by_registers(op: MicroOp, t: u16, a: u16, b: u16) -> Micro
    ensures { result ≡ by_three op t a b }
{
    Micro {
        op,
        unit: 0,
        t,
        a,
        b,
        value: 0,
    }
}

// Unsigned where one of the two is.
fn join(s: Ty, t: Ty) -> Ty
    ensures { result ≡ joined s t }
{
    match s {
        Ty::Uint => Ty::Uint,
        Ty::Int => t,
    }
}

// The operation for a type's sign.
fn by_type(ty: Ty, with_sign: MicroOp, without: MicroOp) -> MicroOp
    ensures { result ≡ by_sign (sign_of ty) with_sign without }
{
    match ty {
        Ty::Int => with_sign,
        Ty::Uint => without,
    }
}

// The micro of a binary operation on registers a and b, whose types are s and t.
fn binary_micro(o: BinOp, s: Ty, t: Ty, to: u16, a: u16, b: u16) -> Micro
    ensures { result ≡ op2_micro (op2_of o s t) to a b }
{
    let both = join(s, t);
    match o {
        BinOp::OrElse => by_registers(MicroOp::Lor, to, a, b),
        BinOp::AndAlso => by_registers(MicroOp::Land, to, a, b),
        BinOp::Or => by_registers(MicroOp::Or, to, a, b),
        BinOp::Xor => by_registers(MicroOp::Xor, to, a, b),
        BinOp::And => by_registers(MicroOp::And, to, a, b),
        BinOp::Eq => by_registers(MicroOp::Eq, to, a, b),
        BinOp::Ne => by_registers(MicroOp::Ne, to, a, b),
        BinOp::Lt => by_registers(by_type(both, MicroOp::Lts, MicroOp::Ltu), to, a, b),
        BinOp::Le => by_registers(by_type(both, MicroOp::Les, MicroOp::Leu), to, a, b),
        BinOp::Gt => by_registers(by_type(both, MicroOp::Lts, MicroOp::Ltu), to, b, a),
        BinOp::Ge => by_registers(by_type(both, MicroOp::Les, MicroOp::Leu), to, b, a),
        BinOp::Shl => by_registers(MicroOp::Shl, to, a, b),
        BinOp::Shr => by_registers(by_type(s, MicroOp::Sar, MicroOp::Shr), to, a, b),
        BinOp::Add => by_registers(MicroOp::Add, to, a, b),
        BinOp::Sub => by_registers(MicroOp::Sub, to, a, b),
        BinOp::Mul => by_registers(MicroOp::Mul, to, a, b),
        BinOp::Div => by_registers(by_type(both, MicroOp::Div, MicroOp::Divu), to, a, b),
        BinOp::Rem => by_registers(by_type(both, MicroOp::Rem, MicroOp::Remu), to, a, b),
    }
}

impl Builder {
    /// Nothing is made yet; the first temporary is register 64.
    pub fn new(alloc: Global) -> Builder
        ensures { made_in result ≡ record { ended = []; current = []; temps = 64 } }
    {
        Builder {
            ended: Vec::new(alloc),
            micros: Vec::new(alloc),
            temps: 64,
        }
    }

    /// One more micro in the current block.
    pub fn put(&mut self, m: Micro) -> Result<(), NoMemory>
        ensures { OnOk result (made_in self.new ≡ grown (made_in self.old) (m ∷ []) self.old.temps) }
    {
        self.micros.push(m)?;
        Ok(())
    }

    /// The next temporary is taken.
    fn take_temporary(&mut self) -> u16
        ensures register { result ≡ self.old.temps }
        ensures made { self.old.temps < 65535 → made_in self.new ≡ grown (made_in self.old) [] (self.old.temps + 1) }
    {
        let t = self.temps;
        self.temps = t.saturating_add(1);
        t
    }

    /// A number into the next temporary, whose register is told.
    pub fn put_number(&mut self, value: u32) -> Result<u16, NoMemory>
        ensures { IfOk result (λ r. (r ≡ self.old.temps) × (self.old.temps < 65535 → made_in self.new ≡ grown (made_in self.old) (set_micro self.old.temps value ∷ []) (self.old.temps + 1))) }
    {
        let t = self.take_temporary();
        self.put(Micro {
            op: MicroOp::Set,
            unit: 0,
            t,
            a: 0,
            b: 0,
            value,
        })?;
        Ok(t)
    }

    /// The element of an array, at the index in register a, into the next temporary.
    pub fn put_load(&mut self, unit: u8, a: u16) -> Result<u16, NoMemory>
        ensures { IfOk result (λ r. (r ≡ self.old.temps) × (self.old.temps < 65535 → made_in self.new ≡ grown (made_in self.old) (load_micro self.old.temps unit a ∷ []) (self.old.temps + 1))) }
    {
        let t = self.take_temporary();
        self.put(Micro {
            op: MicroOp::Load,
            unit,
            t,
            a,
            b: 0,
            value: 0,
        })?;
        Ok(t)
    }

    /// A word of an in-port into the next temporary.
    pub fn put_taken(&mut self, unit: u8) -> Result<u16, NoMemory>
        ensures { IfOk result (λ r. (r ≡ self.old.temps) × (self.old.temps < 65535 → made_in self.new ≡ grown (made_in self.old) (read_micro self.old.temps unit ∷ []) (self.old.temps + 1))) }
    {
        let t = self.take_temporary();
        self.put_read(t, unit)?;
        Ok(t)
    }

    // An operation on register a into the next temporary.
    fn put_op1(&mut self, op: MicroOp, a: u16) -> Result<u16, NoMemory>
        ensures { IfOk result (λ r. (r ≡ self.old.temps) × (self.old.temps < 65535 → made_in self.new ≡ grown (made_in self.old) (by_two op self.old.temps a ∷ []) (self.old.temps + 1))) }
    {
        let t = self.take_temporary();
        self.put(by_registers(op, t, a, 0))?;
        Ok(t)
    }

    /// A prefix operation on register a into the next temporary; a plus leaves it where it is.
    pub fn put_unary(&mut self, o: UnOp, a: u16) -> Result<u16, NoMemory>
        ensures { IfOk result (λ r. (r ≡ op1_reg (operation1 o) self.old.temps a) × (self.old.temps + op1_temps (operation1 o) ≤ 65535 → made_in self.new ≡ grown (made_in self.old) (op1_micros (operation1 o) self.old.temps a) (self.old.temps + op1_temps (operation1 o)))) }
    {
        match o {
            UnOp::Neg => self.put_op1(MicroOp::Neg, a),
            UnOp::Plus => Ok(a),
            UnOp::BitNot => self.put_op1(MicroOp::Not, a),
            UnOp::Not => self.put_op1(MicroOp::Lnot, a),
        }
    }

    /// A binary operation on registers a and b, whose types are s and t, into the next temporary.
    pub fn put_binary(&mut self, o: BinOp, s: Ty, t: Ty, a: u16, b: u16) -> Result<u16, NoMemory>
        ensures { IfOk result (λ r. (r ≡ self.old.temps) × (self.old.temps < 65535 → made_in self.new ≡ grown (made_in self.old) (op2_micro (op2_of o s t) self.old.temps a b ∷ []) (self.old.temps + 1))) }
    {
        let to = self.take_temporary();
        self.put(binary_micro(o, s, t, to, a, b))?;
        Ok(to)
    }

    /// Register a into a scalar's register.
    pub fn put_move(&mut self, t: u16, a: u16) -> Result<(), NoMemory>
        ensures { OnOk result (made_in self.new ≡ grown (made_in self.old) (by_two MicroOp.Move t a ∷ []) self.old.temps) }
    {
        self.put(by_registers(MicroOp::Move, t, a, 0))
    }

    /// Register b into an array, at the index in register a.
    pub fn put_store(&mut self, unit: u8, a: u16, b: u16) -> Result<(), NoMemory>
        ensures { OnOk result (made_in self.new ≡ grown (made_in self.old) (store_micro unit a b ∷ []) self.old.temps) }
    {
        self.put(Micro {
            op: MicroOp::Store,
            unit,
            t: 0,
            a,
            b,
            value: 0,
        })
    }

    /// A word of an in-port into register t.
    pub fn put_read(&mut self, t: u16, unit: u8) -> Result<(), NoMemory>
        ensures { OnOk result (made_in self.new ≡ grown (made_in self.old) (read_micro t unit ∷ []) self.old.temps) }
    {
        self.put(Micro {
            op: MicroOp::Read,
            unit,
            t,
            a: 0,
            b: 0,
            value: 0,
        })
    }

    /// Register a to an out-port.
    pub fn put_write(&mut self, unit: u8, a: u16) -> Result<(), NoMemory>
        ensures { OnOk result (made_in self.new ≡ grown (made_in self.old) (write_micro unit a ∷ []) self.old.temps) }
    {
        self.put(Micro {
            op: MicroOp::Write,
            unit,
            t: 0,
            a,
            b: 0,
            value: 0,
        })
    }

    /// The number of the current block, at most 2^32 - 1.
    pub fn number(&self) -> u32
        ensures { result ≡ min (length (made_in self.now).ended) (2 ^ 32 - 1) }
    {
        self.ended.len().min(0xffff_ffff) as u32
    }

    /// The current block is ended, and an empty one is opened.
    pub fn end(&mut self, alloc: Global, next: Next) -> Result<(), NoMemory>
        ensures { OnOk result (made_in self.new ≡ closed (made_in self.old) next) }
    {
        let micros = mem::replace(&mut self.micros, Vec::new(alloc));
        self.ended.push(Block { micros, next })?;
        Ok(())
    }

    /// The block with this number, if it is ended, goes on elsewhere.
    pub fn aim(&mut self, at: u32, next: Next)
        ensures { made_in self.new ≡ aimed (made_in self.old) at next }
    {
        if let Some(block) = self.ended.get_mut(at as usize) {
            block.next = next;
        }
    }
}
