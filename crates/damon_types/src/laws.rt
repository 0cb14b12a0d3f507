// Laws of the definitions that the contracts cite, for the proofs of callers.
ghost use Rattle.std.specs.Prelude.{◌≡◌, ℕ, ◌<◌, ◌≤◌, List, Some};
ghost use Rattle.damon_types.specs.declared.space.Target.{Target};
ghost use Rattle.damon_types.specs.Space.{IsSpace, pages_of, page_of, place_of};

/// The page that holds the first byte of a page is that page: `place_of` and `page_of` number the
/// pages of a space alike.
pub fn pages_are_numbered()
    ensures numbered { (ts : List Target) (page : ℕ) → IsSpace ts → page < pages_of ts
        → page_of ts (place_of ts page).target (place_of ts page).addr ≡ Some page }
{}

/// The page of a byte is one of the space's pages, and within a target a byte with a greater
/// address lies in the same page or a later one.
pub fn pages_rise()
    ensures below { (ts : List Target) (target addr page : ℕ) → page_of ts target addr ≡ Some page
        → page < pages_of ts }
    ensures rise { (ts : List Target) (target a b p q : ℕ) → page_of ts target a ≡ Some p
        → page_of ts target b ≡ Some q → a ≤ b → p ≤ q }
{}
