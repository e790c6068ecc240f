//! Values worked by hand.

use hic_exec::{AluFault, Operand, alu};
use hic_isa::AluOp;

#[test]
fn gives_values(rt: HostRuntime) {
    let most = u64::MAX;
    for (op, x, y, value) in [
        (AluOp::Add, most, 2, Ok(1)),
        (AluOp::Sub, 5, 7, Ok(most - 1)),
        (AluOp::Mul, most, most, Ok(1)),
        (AluOp::Div, 7, 2, Ok(3)),
        (AluOp::Div, most, 1, Ok(most)),
        (AluOp::Div, 0, 0, Err(AluFault::ZeroDivisor)),
        (AluOp::Rem, 7, 2, Ok(1)),
        (AluOp::Rem, 7, most, Ok(7)),
        (AluOp::Rem, 1, 0, Err(AluFault::ZeroDivisor)),
        (AluOp::And, 12, 10, Ok(8)),
        (AluOp::Or, 12, 10, Ok(14)),
        (AluOp::Xor, 12, 10, Ok(6)),
        (AluOp::Shl, 3, 63, Ok(9_223_372_036_854_775_808)),
        (AluOp::Shl, 3, 64, Ok(3)),
        (AluOp::Shr, most, 63, Ok(1)),
        (AluOp::Shr, 6, 65, Ok(3)),
        (AluOp::Ltu, 1, most, Ok(1)),
        (AluOp::Ltu, 3, 3, Ok(0)),
    ] {
        assert_eq!(rt;
            alu(op, Operand::Number(x), Operand::Number(y)),
            value,
            "{op:?} {x} {y}"
        );
    }
    let number = Operand::Number(0);
    for (x, y) in [
        (number, Operand::Reference),
        (Operand::Reference, number),
        (Operand::Reference, Operand::Reference),
    ] {
        assert_eq!(rt; alu(AluOp::Div, x, y), Err(AluFault::BadType));
    }
}
