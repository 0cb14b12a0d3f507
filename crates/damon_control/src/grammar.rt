// Which kind of text is read.
#[derive(Clone, Copy)]
pub enum Grammar {
    // A script, which is played in one thread.
    OfScript,
    // A live script, for workers and controllers beside the monitor.
    OfLive,
    // The head of a journal: the lines before its entries.
    OfJournal,
}
