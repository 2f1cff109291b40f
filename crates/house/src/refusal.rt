// Why the house does not do what it is asked.
ghost use Rattle.std.specs.Prelude.{◌≡◌};

// The rules number the refusals. What a number is behind tells more: a partition, a position in the list of frames, or the first byte of a record.
#[derive(Clone, Copy, Debug, PartialEq, Eq)]
pub enum Refusal {
    // boot
    PartitionCount,
    PageCount(u64),
    TurnLength,
    MemorySize,
    ListLength,
    FrameOutside(u64),
    FrameTwice(u64),
    FrameKept(u64),
    // the calls
    Damaged,
    OtherMemory,
    NoSuchPartition,
    NothingRuns,
    BeyondPages,
    ShortOutput,
    TooManySteps,
    // files
    WrongHouseFile(u64),
    WrongSavedFile(u64),
}

impl Refusal {
    ghost use Rattle.house.specs.Refusals.{refusal};

    pub fn number(self) -> u32
        ensures { result ≡ (refusal self).number }
    {
        match self {
            Refusal::PartitionCount => 1,
            Refusal::PageCount(_) => 2,
            Refusal::TurnLength => 3,
            Refusal::MemorySize => 4,
            Refusal::ListLength => 5,
            Refusal::FrameOutside(_) => 6,
            Refusal::FrameTwice(_) => 7,
            Refusal::Damaged => 8,
            Refusal::OtherMemory => 9,
            Refusal::NoSuchPartition => 10,
            Refusal::NothingRuns => 11,
            Refusal::BeyondPages => 12,
            Refusal::ShortOutput => 13,
            Refusal::TooManySteps => 14,
            Refusal::WrongHouseFile(_) => 15,
            Refusal::FrameKept(_) => 16,
            Refusal::WrongSavedFile(_) => 17,
        }
    }

    // 0 where the number says all.
    pub fn detail(self) -> u64
        ensures { result ≡ (refusal self).detail }
    {
        match self {
            Refusal::PageCount(partition) => partition,
            Refusal::FrameOutside(position) => position,
            Refusal::FrameTwice(position) => position,
            Refusal::FrameKept(position) => position,
            Refusal::WrongHouseFile(byte) => byte,
            Refusal::WrongSavedFile(byte) => byte,
            _ => 0,
        }
    }
}
