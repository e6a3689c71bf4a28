//! Physical and logical offsets.

ghost use Rattle.std.specs.Prelude.{◌≡◌, ◌≤◌, ℕ, Some};
ghost use Rattle.e57_page.specs.File.{longest_file};
ghost use Rattle.e57_page.specs.Place.{place};

/// The bytes of a page.
pub const PAGE: u64 = 1024;

/// The logical bytes of a page.
pub const PAYLOAD: u64 = 1020;

/// The logical offset of the byte at a physical offset, or none where that byte is of a page's word (ASTM E2807,
/// physical and logical offsets).
pub fn place_of(physical: u64) -> Option<u64>
    ensures { result ≡ place physical }
{
    let inside = physical % PAGE;
    (inside < PAYLOAD).then_some(physical / PAGE * PAYLOAD + inside)
}

/// The physical offset of the byte at a logical offset: the one whose place it is. The offset is at most 2^48.
pub fn physical_of(logical: u64) -> u64
    requires { logical ≤ longest_file }
    ensures { place result ≡ Some logical }
{
    logical / PAYLOAD * PAGE + logical % PAYLOAD
}

/// A law: a place has one physical offset, so `physical_of` can answer no other.
#[tactic(auto, using(crate::proofs::PlaceLaws::one_physical))]
pub fn one_physical()
    ensures { (a b q : ℕ) → place a ≡ Some q → place b ≡ Some q → a ≡ b }
{}
