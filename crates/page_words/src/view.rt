// The views of seats. They exist in contracts alone: the running program has no `View` and no `Entry`.
use std::collections::LinkedList;

/// A touch of a page. The tag is the pass that last cleared the page, 0 before the first clear.
#[derive(Clone, Copy)]
pub struct Touch {
    pub page: u32,
    pub tag: u64,
}

/// One thing that the monitor did.
pub enum Entry {
    /// The page was cleared in a pass.
    Clear {
        page: u32,
        pass: u64,
    },
    /// The page's word was loaded.
    Load {
        page: u32,
        word: u64,
    },
    /// The seat of a worker with this number and these touches was gathered.
    Gathered {
        worker: u32,
        touches: LinkedList<Touch>,
    },
}

/// The view of a seat.
pub enum View {
    /// The view of a touch seat: its worker's number, and its touches in order.
    Toucher {
        worker: u32,
        touches: LinkedList<Touch>,
    },
    /// The view of the monitor's seat: its entries in order, and the number of touch seats out.
    Monitor {
        entries: LinkedList<Entry>,
        out: u32,
    },
    /// The view of a seat that was gathered.
    Spent,
}
