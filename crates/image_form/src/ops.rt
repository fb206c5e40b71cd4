//! The numbers of the operations of hardware pages.

ghost use Rattle.std.specs.Prelude.{◌≡◌};
ghost use Rattle.image_form.specs.Ops.{number_of, op_of as op_with};

use fsm_core::MicroOp;

/// The number of an operation.
pub fn number_of(op: MicroOp) -> u8
    ensures { result ≡ number_of op }
{
    match op {
        MicroOp::Set => 0,
        MicroOp::Move => 1,
        MicroOp::Add => 2,
        MicroOp::Sub => 3,
        MicroOp::And => 4,
        MicroOp::Or => 5,
        MicroOp::Xor => 6,
        MicroOp::Shl => 7,
        MicroOp::Shr => 8,
        MicroOp::Sar => 9,
        MicroOp::Lts => 10,
        MicroOp::Ltu => 11,
        MicroOp::Les => 12,
        MicroOp::Leu => 13,
        MicroOp::Eq => 14,
        MicroOp::Ne => 15,
        MicroOp::Land => 16,
        MicroOp::Lor => 17,
        MicroOp::Neg => 18,
        MicroOp::Not => 19,
        MicroOp::Lnot => 20,
        MicroOp::Mul => 21,
        MicroOp::Div => 22,
        MicroOp::Divu => 23,
        MicroOp::Rem => 24,
        MicroOp::Remu => 25,
        MicroOp::Load => 26,
        MicroOp::Store => 27,
        MicroOp::Read => 28,
        MicroOp::Write => 29,
    }
}

/// The operation with this number.
pub fn op_of(number: u8) -> Option<MicroOp>
    ensures { result ≡ op_with number }
{
    match number {
        0 => Some(MicroOp::Set),
        1 => Some(MicroOp::Move),
        2 => Some(MicroOp::Add),
        3 => Some(MicroOp::Sub),
        4 => Some(MicroOp::And),
        5 => Some(MicroOp::Or),
        6 => Some(MicroOp::Xor),
        7 => Some(MicroOp::Shl),
        8 => Some(MicroOp::Shr),
        9 => Some(MicroOp::Sar),
        10 => Some(MicroOp::Lts),
        11 => Some(MicroOp::Ltu),
        12 => Some(MicroOp::Les),
        13 => Some(MicroOp::Leu),
        14 => Some(MicroOp::Eq),
        15 => Some(MicroOp::Ne),
        16 => Some(MicroOp::Land),
        17 => Some(MicroOp::Lor),
        18 => Some(MicroOp::Neg),
        19 => Some(MicroOp::Not),
        20 => Some(MicroOp::Lnot),
        21 => Some(MicroOp::Mul),
        22 => Some(MicroOp::Div),
        23 => Some(MicroOp::Divu),
        24 => Some(MicroOp::Rem),
        25 => Some(MicroOp::Remu),
        26 => Some(MicroOp::Load),
        27 => Some(MicroOp::Store),
        28 => Some(MicroOp::Read),
        29 => Some(MicroOp::Write),
        _ => None,
    }
}
