/// A region: consecutive pages of one target that are taken to be accessed alike, with its access
/// counts. A monitor keeps its regions as the rows of a list.
#[derive(Clone, Copy, Debug, PartialEq, Eq)]
pub struct Row {
    /// The target that the pages belong to.
    pub target: u32,
    /// The number of the first page.
    pub start: u32,
    /// The number of pages.
    pub pages: u32,
    /// In how many passes since the last aggregation the page that was checked had been accessed.
    pub count: u32,
    /// The count at the last aggregation.
    pub last: u32,
    /// For how many aggregations the count has changed little.
    pub age: u32,
}
