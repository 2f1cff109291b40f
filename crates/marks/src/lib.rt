// Marks: each frame of the memory has its owner's tag, 0 for none. A frame that stands twice is found by one look.
#![tactic(auto)]

ghost use Rattle.std.specs.Prelude.{◌≡◌, false, true, ℕ, ◌<◌, ◌≤◌, length, get_or, MatchOption};
ghost use Rattle.house.specs.Lists.{any};
ghost use Rattle.marks.specs.Marked.{marked, twice_marked, first_twice};

use dlx::words::wide;

// Marks the first n frames of a list with the tag, up to one that has an owner already: gives its position.
pub fn mark(frames: &[u32], n: usize, tag: u32, owners: &mut [u32; 1024]) -> Option<usize>
    requires { (n ≤ length frames.now) × (0 < tag) × (length owners.old ≡ 1024) × ((k : ℕ) → k < n → get_or frames.now k 0 < 1024) }
    ensures twice { MatchOption result (any (twice_marked owners.old frames.now) n ≡ false) (λ at. (any (twice_marked owners.old frames.now) n ≡ true) × (at ≡ first_twice owners.old frames.now n)) }
    ensures marks { owners.new ≡ marked frames.now tag owners.old (first_twice owners.old frames.now n) }
{
    for (k, frame) in frames[..n].iter().enumerate() {
        let f = wide(*frame);
        if owners[f] != 0 {
            return Some(k);
        }
        owners[f] = tag;
    }
    None
}
