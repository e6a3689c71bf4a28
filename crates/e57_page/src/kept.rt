//! The pages that were read last.

ghost use Rattle.std.specs.Prelude.{◌≡◌, ◌+◌, ◌%◌, ◌<◌, ◌^◌, false, true, length, replicate, MatchOption};
ghost use Rattle.e57_page.specs.Kept.{places, is_kept, numbers_with, pages_with, page_in};

/// How many pages are kept.
pub const PLACES: usize = 144;

/// Up to 144 pages with their numbers: page n may stand in place n % 144 alone. A place that isn't used has number 0,
/// whose place is the first one, which page 0 has until another page of that place is read.
#[derive(Drop)]
pub struct Kept {
    pub numbers: [u64; PLACES],
    pub pages: [[u8; 1024]; PLACES],
}

/// Page 0 alone.
pub fn keep_first(page: &[u8; 1024]) -> Kept
    ensures numbers { result.numbers ≡ replicate places 0 }
    ensures page { page_in result.pages 0 ≡ page.now }
{
    let mut pages = [[0; 1024]; PLACES];
    pages[0] = *page;
    Kept {
        numbers: [0; PLACES],
        pages,
    }
}

/// The place of page `n`.
fn place_in(n: u64) -> usize
    ensures { result ≡ n % places }
{
    (n % PLACES as u64) as usize
}

/// Page `n`, where it is kept.
pub fn kept_page(kept: &Kept, n: u64) -> Option<&[u8; 1024]>
    ensures places { (length kept.now.numbers ≡ places) × (length kept.now.pages ≡ places) }
    ensures page { MatchOption result
        (is_kept kept.now.numbers n ≡ false)
        (λ page. (is_kept kept.now.numbers n ≡ true) × (page.now ≡ page_in kept.now.pages n)) }
{
    let place = place_in(n);
    if kept.numbers[place] == n {
        Some(&kept.pages[place])
    } else {
        None
    }
}

/// Keeps page `n`, unless its place has a page that a read of the pages below `high` comes to later.
pub fn keep(kept: &mut Kept, n: u64, high: u64, page: &[u8; 1024])
    requires { n + places < 2 ^ 64 }
    ensures numbers { kept.new.numbers ≡ numbers_with kept.old.numbers n high }
    ensures pages { kept.new.pages ≡ pages_with kept.old.numbers kept.old.pages n high page.now }
{
    let place = place_in(n);
    let other = kept.numbers[place];
    if n + PLACES as u64 <= other && other < high {
        return;
    }
    kept.numbers[place] = n;
    kept.pages[place] = *page;
}
