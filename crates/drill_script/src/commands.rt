// Commands of a script.
ghost use Rattle.std.specs.Prelude.{◌≡◌};
ghost use Rattle.std.specs.Result.{result_ok};
ghost use Rattle.drill_script.specs.Commands.{number_of, size_of, command_of, read_of};

use crate::words::word;
use dlx::words::wide;

// What a command does, by its number in a script.
#[derive(Clone, Copy, PartialEq, Eq)]
pub enum Op {
    Boot = 1,
    Run = 2,
    Start = 3,
    Stop = 4,
    Empty = 5,
    ReadOut = 6,
    PokeMemory = 7,
    SetLength = 8,
    PokeHouse = 9,
    FillMemory = 10,
    Clear = 11,
    Audit = 12,
    Mend = 13,
    Save = 14,
    Piece = 15,
    Finish = 16,
    Unshadowed = 17,
}

// No op has the number.
#[derive(Clone, Copy)]
pub struct UnknownOp;

impl Op {
    pub fn number(self) -> u32
        ensures { result ≡ number_of self }
    {
        self as u32
    }
}

impl TryFrom<u32> for Op {
    ghost use Rattle.std.specs.Prelude.{◌≡◌};
    ghost use Rattle.std.specs.Result.{result_ok};
    ghost use Rattle.drill_script.specs.Commands.{op_of};

    type Error = UnknownOp;

    ghost try_from_gives = { λ n r. result_ok r ≡ op_of n };

    #[tactic(auto, unfolding(crate::specs::Commands::op_of))]
    fn try_from(number: u32) -> Result<Op, UnknownOp> {
        match number {
            1 => Ok(Op::Boot),
            2 => Ok(Op::Run),
            3 => Ok(Op::Start),
            4 => Ok(Op::Stop),
            5 => Ok(Op::Empty),
            6 => Ok(Op::ReadOut),
            7 => Ok(Op::PokeMemory),
            8 => Ok(Op::SetLength),
            9 => Ok(Op::PokeHouse),
            10 => Ok(Op::FillMemory),
            11 => Ok(Op::Clear),
            12 => Ok(Op::Audit),
            13 => Ok(Op::Mend),
            14 => Ok(Op::Save),
            15 => Ok(Op::Piece),
            16 => Ok(Op::Finish),
            17 => Ok(Op::Unshadowed),
            _ => Err(UnknownOp),
        }
    }
}

// Its four words, and how many bytes it has with those behind them.
#[derive(Clone, Copy)]
pub struct Command {
    pub op: Op,
    pub a: u32,
    pub b: u32,
    pub c: u32,
    pub size: usize,
}

// Why there is no command: the bytes end before its end, or its four words are wrong.
#[derive(Clone, Copy)]
pub enum NoCommand {
    Short,
    Wrong { op: u32, a: u32, b: u32, c: u32 },
}

// The size by the op and the two words that can say more: none where one of them is wrong.
#[tactic(auto, unfolding(crate::specs::Commands::size_of))]
fn size(op: Op, a: u32, c: u32) -> Option<usize>
    ensures { result ≡ size_of op a c }
{
    match op {
        Op::Boot => (a <= 16 && c <= 4096).then_some(16 + 4 * (wide(a) + wide(c))),
        Op::ReadOut => (c <= 4096).then_some(24),
        Op::Save => (c <= 70000).then_some(16),
        Op::Piece => (a <= 16384).then_some(16 + 4 * wide(a).div_ceil(4)),
        _ => Some(16),
    }
}

// The command at the start of the bytes, or why there is none.
#[tactic(auto, unfolding(crate::specs::Commands::read_of, crate::specs::Commands::why_none, crate::specs::Commands::command_of, crate::specs::Commands::named, crate::specs::Commands::sized))]
pub fn read(bytes: &[u8]) -> Result<Command, NoCommand>
    ensures value { result ≡ read_of bytes.now }
    ensures command { result_ok result ≡ command_of bytes.now }
{
    if bytes.len() < 16 {
        return Err(NoCommand::Short);
    }
    let op = word(bytes, 0);
    let a = word(bytes, 4);
    let b = word(bytes, 8);
    let c = word(bytes, 12);
    let wrong = NoCommand::Wrong { op, a, b, c };
    let op = Op::try_from(op).ok().ok_or(wrong)?;
    let size = size(op, a, c).ok_or(wrong)?;
    (size <= bytes.len())
        .then_some(Command { op, a, b, c, size })
        .ok_or(NoCommand::Short)
}
