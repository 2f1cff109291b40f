// The office display's two functions, for C. They take plain numbers and answer one; display/house.h declares them.
#![tactic(auto)]

ghost use Rattle.std.specs.Prelude.{◌≡◌};
ghost use Rattle.dlx.specs.Interrupts.{level_of};
ghost use Rattle.addresses.specs.Entries.{composition_of};

// The guest page of an entry word in a guest of so many pages, or 4,294,967,295 for a fault. Access 0 is load, all else store.
#[unsafe(no_mangle)]
pub extern "C" fn house_compose(entry: u32, pages: u32, access: u32) -> u32
    ensures { result ≡ composition_of entry pages access }
{
    translate::compose(entry, pages, access).unwrap_or(u32::MAX)
}

// The level of a cause word, 32 for 0.
#[unsafe(no_mangle)]
pub extern "C" fn house_level(causes: u32) -> u32
    ensures { result ≡ level_of causes }
{
    dlx::interrupt::level(causes)
}
