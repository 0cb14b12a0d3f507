ghost use Rattle.std.specs.Prelude.{◌≡◌, ℕ, ◌+◌, ◌^◌, ◌≤◌, ◌<◌};
ghost use Rattle.region_list.specs.Join.{average as average_of, join};

use damon_types::Row;

/// Joins a row with the next one. The result has the start of the first and the pages of both; its
/// count, last count and age are averages weighted by pages and rounded down. The first row has a
/// page, and both have fewer than 2^32. The averages are this project's own.
pub fn join_rows(a: &Row, b: &Row) -> Row
    requires some { 1 ≤ a.now.pages }
    requires few { a.now.pages + b.now.pages < 2 ^ 32 }
    ensures { result ≡ join a.now b.now }
{
    Row {
        target: a.target,
        start: a.start,
        pages: a.pages + b.pages,
        count: average(a.count, a.pages, b.count, b.pages),
        last: average(a.last, a.pages, b.last, b.pages),
        age: average(a.age, a.pages, b.age, b.pages),
    }
}

// The average of two numbers, weighted by pages and rounded down.
fn average(x: u32, x_pages: u32, y: u32, y_pages: u32) -> u32
    requires some { 1 ≤ x_pages }
    requires few { x_pages + y_pages < 2 ^ 32 }
    ensures { result ≡ average_of x x_pages y y_pages }
{
    // Rows that are joined are alike, so this is common, and a division takes longer than the rest.
    if x == y {
        return x;
    }
    let sum = u64::from(x) * u64::from(x_pages) + u64::from(y) * u64::from(y_pages);
    (sum / u64::from(x_pages + y_pages)) as u32
}
