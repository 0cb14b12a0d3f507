// The reciprocals of the rows' sizes.
ghost use Rattle.std.specs.Prelude.{◌≡◌, ◌%◌, ◌≤◌, length};

use reciprocal::Reciprocal;
use region_list::Regions;

// In how many passes the reciprocals of the rows' sizes are renewed once. A reciprocal takes as long as some
// ten remainders, so it pays only where a row lives longer than that.
pub(crate) const RENEWAL: u32 = 16;

// Makes the reciprocals those of the rows' sizes, if this is the pass of a renewal.
pub(crate) fn renew_at(pass: u32, regions: &Regions, reciprocals: &mut [Reciprocal])
    requires { length regions.now.rows ≤ length reciprocals.old }
    ensures { length reciprocals.new ≡ length reciprocals.old }
{
    if pass == 0 {
        renew(regions, reciprocals);
    }
}

// Makes the reciprocals those of the rows' sizes.
fn renew(regions: &Regions, reciprocals: &mut [Reciprocal])
    requires { length regions.now.rows ≤ length reciprocals.old }
    ensures { length reciprocals.new ≡ length reciprocals.old }
{
    for index in 0..regions.len() {
        let pages = regions.row(index).pages;
        if reciprocals[index as usize].divisor() != pages {
            reciprocals[index as usize] = Reciprocal::of(pages);
        }
    }
}

// What is left of a word after a division by this many pages; by the reciprocal, if it is theirs.
pub(crate) fn remainder(word: u32, pages: u32, reciprocal: &Reciprocal) -> u32
    requires { 1 ≤ pages }
    ensures { result ≡ word % pages }
{
    if reciprocal.divisor() == pages {
        reciprocal.remainder(word)
    } else {
        word % pages
    }
}
