// The instruction tables: a word is first read as an instruction.
ghost use Rattle.std.specs.Prelude.{◌≡◌};
ghost use Rattle.dlx.specs.Instructions.{instruction_of, register_type, part_type};

use crate::words::extend;
use dlx::instruction::{Instruction, Operation};
use dlx::partition::Partition;
use dlx::words::wide;

// The words of opcode 0.
fn read_register_type(w: u32) -> Instruction
    ensures { result ≡ register_type w }
{
    let rs1 = wide(w / 2097152 % 32);
    let rs2 = wide(w / 65536 % 32);
    let rd = wide(w / 2048 % 32);
    let sa = w / 64 % 32;
    let function = w % 64;
    match function {
        32 => Instruction::Register(Operation::Add, rd, rs1, rs2),
        34 => Instruction::Register(Operation::Sub, rd, rs1, rs2),
        36 => Instruction::Register(Operation::And, rd, rs1, rs2),
        37 => Instruction::Register(Operation::Or, rd, rs1, rs2),
        38 => Instruction::Register(Operation::Xor, rd, rs1, rs2),
        40..=47 => Instruction::Register(Operation::Test(function - 40), rd, rs1, rs2),
        16 => {
            if sa <= Partition::TLOAD {
                return Instruction::Movs2i(rd, sa);
            }
            Instruction::Ill
        }
        17 => {
            if sa <= Partition::TLOAD {
                return Instruction::Movi2s(sa, rs1);
            }
            Instruction::Ill
        }
        _ => Instruction::Ill,
    }
}

// Bytes and half words.
fn read_part_type(w: u32) -> Instruction
    ensures { result ≡ part_type w }
{
    let opcode = w / 67108864;
    let rs1 = wide(w / 2097152 % 32);
    let rd = wide(w / 65536 % 32);
    let imm = extend(0x8000, w);
    match opcode {
        32 | 33 | 36 | 37 => Instruction::LoadBy(opcode, rs1, imm, rd),
        40 | 41 => Instruction::StoreBy(opcode, rs1, imm, rd),
        _ => Instruction::Ill,
    }
}

pub fn read_instruction(w: u32) -> Instruction
    ensures { result ≡ instruction_of w }
{
    let opcode = w / 67108864;
    let rs1 = wide(w / 2097152 % 32);
    let rd = wide(w / 65536 % 32);
    let imm = extend(0x8000, w);
    match opcode {
        35 => Instruction::LoadBy(35, rs1, imm, rd),
        43 => Instruction::StoreBy(43, rs1, imm, rd),
        8 => Instruction::Immediate(Operation::Add, rd, rs1, imm),
        10 => Instruction::Immediate(Operation::Sub, rd, rs1, imm),
        12 => Instruction::Immediate(Operation::And, rd, rs1, imm),
        13 => Instruction::Immediate(Operation::Or, rd, rs1, imm),
        14 => Instruction::Immediate(Operation::Xor, rd, rs1, imm),
        15 => Instruction::Lhgi(rd, imm),
        24..=31 => Instruction::Immediate(Operation::Test(opcode - 24), rd, rs1, imm),
        4 => Instruction::Beqz(rs1, imm),
        5 => Instruction::Bnez(rs1, imm),
        22 => Instruction::Jr(rs1),
        23 => Instruction::Jalr(rs1),
        2 => Instruction::J(extend(0x200_0000, w)),
        3 => Instruction::Jal(extend(0x200_0000, w)),
        62 => Instruction::Trap(extend(0x200_0000, w)),
        63 => Instruction::Rfe,
        0 => read_register_type(w),
        _ => read_part_type(w),
    }
}
