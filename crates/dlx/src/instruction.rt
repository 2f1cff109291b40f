// The instructions that words are read as.

// What RD becomes from two words. Test is clr, sgr, seq, sge, sls, sne, sle, set by number.
#[derive(Clone, Copy)]
pub enum Operation {
    Add,
    Sub,
    And,
    Or,
    Xor,
    Test(u32),
}

// Register numbers are indices; their order is RD, RS1, RS2. Immediates are sign-extended already. A load and a store bring their opcode, which tells the width,
// and RD last: the order of their fields decides what a step costs (docs/SPEED.md).
#[derive(Clone, Copy)]
pub enum Instruction {
    LoadBy(u32, usize, u32, usize),
    StoreBy(u32, usize, u32, usize),
    Immediate(Operation, usize, usize, u32),
    Lhgi(usize, u32),
    Beqz(usize, u32),
    Bnez(usize, u32),
    Jr(usize),
    Jalr(usize),
    J(u32),
    Jal(u32),
    Trap(u32),
    Rfe,
    Register(Operation, usize, usize, usize),
    Movs2i(usize, u32),
    Movi2s(u32, usize),
    Ill,
}
