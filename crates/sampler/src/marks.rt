// The marks of pages, as loads see them.
ghost use Rattle.std.specs.Prelude.{◌≡◌, ◌<◌, Bool, List, length};
ghost use Rattle.sampler.specs.Loaded.{mark_of};

/// The marks of pages: whether each was accessed since it was cleared last. How they are stored is the
/// business of who stores them.
pub trait Marks {
    /// The marks of all pages, in order.
    ghost marks_of: { Self → List Bool };

    /// Whether the page, which is below the number of pages, is marked.
    fn is_marked(&self, page: u32) -> bool
        requires { page < length (marks_of self.now) }
        ensures { result ≡ mark_of (marks_of self.now) page };
}
