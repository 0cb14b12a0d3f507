ghost use Rattle.std.specs.Prelude.{◌≡◌, ℕ, true, ◌+◌, ◌^◌, ◌≤◌, ◌<◌, List, [], ◌∷◌, ◌++◌, drop, length, if◌then◌else◌};
ghost use Rattle.damon_types.specs.Ranges.{end_of};
ghost use Rattle.region_list.specs.Rows.{row_at};
ghost use Rattle.range_update.specs.Order.{EndBy, RowsInOrder, row_end as row_end_of};
ghost use Rattle.range_update.specs.Updated.{boundaries, may_keep as may_keep_at, range_pieces, piece_of};
ghost use Rattle.range_update.specs.OpenPiece.{IsOpenPiece, with_end, pieces_from};

use crate::lookup::{covering_row, ends_by, row_end, skip_rows};
use damon_types::{Range, Row};
use region_list::RowBuf;

// A new range while it is cut: the old rows, the page after the last one of the range, and the least
// pages of a piece.
#[derive(Clone, Copy)]
struct Cutting<'a> {
    rows: &'a RowBuf,
    end: u32,
    unit: u32,
}

// Appends the pieces of a new range. The rows before the index `from` end by its first page. Those
// before the result end by its end, so the next range can go on there.
pub(crate) fn cut_range(
    rows: &RowBuf,
    range: Range,
    unit: u32,
    from: usize,
    made: &mut RowBuf,
) -> usize
    requires order { RowsInOrder 0 rows.now.rows }
    requires unit { 1 ≤ unit }
    requires within { from ≤ length rows.now.rows }
    requires past { EndBy range.first rows.now.rows from }
    requires end { end_of range < 2 ^ 32 }
    requires room { length made.old.rows + length (range_pieces unit rows.now.rows range) ≤ made.old.cap }
    ensures made { made.new
        ≡ record made.old { rows = made.old.rows ++ range_pieces unit rows.now.rows range } }
    ensures within { result ≤ length rows.now.rows }
    ensures past { EndBy (end_of range) rows.now.rows result }
    ensures forward { from ≤ result }
{
    let end = range.first + range.pages;
    let mut index = skip_rows(rows, range.first, from);
    let first = covering_row(rows, index, range.first);
    let mut current = begin_piece(range.target, range.first, first);
    let cut = &Cutting { rows, end, unit };
    'rows: while ends_by(rows, index, end) {
        let piece = cut_at_row(cut, index, current, made);
        let progress = push_whole_rows(cut, index + 1, piece, made);
        index = progress.next;
        current = progress.current;
    }
    push_last(cut, index, current, made);
    index
}

// How far a range has been cut: the index of the next old row, and the current piece.
#[derive(Clone, Copy)]
struct Progress {
    next: usize,
    current: Row,
}

// Appends the rows from the index `from` on that are pieces as they are, up to the first that is not.
// Most rows of a range are such, and a whole stretch of them is copied at once, column by column.
fn push_whole_rows(cut: &Cutting<'_>, from: usize, current: Row, made: &mut RowBuf) -> Progress
    requires order { RowsInOrder 0 cut.now.rows.now.rows }
    requires unit { 1 ≤ cut.now.unit }
    requires open { IsOpenPiece cut.now.rows.now.rows current }
    requires within { from ≤ length cut.now.rows.now.rows }
    requires past { EndBy cut.now.end cut.now.rows.now.rows from }
    requires room { length made.old.rows
        + length (pieces_from cut.now.rows.now.rows current.target cut.now.unit cut.now.end current.start
        (boundaries (drop from cut.now.rows.now.rows))) ≤ made.old.cap }
    ensures within { result.next ≤ length cut.now.rows.now.rows }
    ensures forward { from ≤ result.next }
    ensures past { EndBy cut.now.end cut.now.rows.now.rows result.next }
    ensures open { IsOpenPiece cut.now.rows.now.rows result.current }
    ensures target { result.current.target ≡ current.target }
    ensures start { current.start ≤ cut.now.end → result.current.start ≤ cut.now.end }
    ensures cap { made.new.cap ≡ made.old.cap }
    ensures made { made.new.rows
        ++ pieces_from cut.now.rows.now.rows current.target cut.now.unit cut.now.end result.current.start
        (boundaries (drop result.next cut.now.rows.now.rows))
        ≡ made.old.rows
        ++ pieces_from cut.now.rows.now.rows current.target cut.now.unit cut.now.end current.start
        (boundaries (drop from cut.now.rows.now.rows)) }
{
    let mut next = from;
    let mut start = current.start;
    'whole: while is_whole(cut, next, current.target, start) {
        start = row_end(cut.rows, next);
        next += 1;
    }
    if next == from {
        return Progress { next, current };
    }
    made.append_rows(cut.rows, from, next);
    let row = covering_row(cut.rows, next, start);
    Progress {
        next,
        current: begin_piece(current.target, start, row),
    }
}

// Whether there is a row with this index that is a piece as it is: it has the target, it begins at the
// page `start`, where the current piece does, and its end may be kept.
fn is_whole(cut: &Cutting<'_>, index: usize, target: u32, start: u32) -> bool
    requires order { RowsInOrder 0 cut.now.rows.now.rows }
    ensures here { result ≡ true → index < length cut.now.rows.now.rows }
    ensures target { result ≡ true → (row_at cut.now.rows.now.rows index).target ≡ target }
    ensures start { result ≡ true → (row_at cut.now.rows.now.rows index).start ≡ start }
    ensures end { result ≡ true
        → may_keep_at cut.now.unit cut.now.end start
        (row_end_of (row_at cut.now.rows.now.rows index)) ≡ true }
    ensures few { length cut.now.rows.now.rows < 2 ^ 32 }
{
    index < cut.rows.len() as usize
        && cut.rows.at(index).target == target
        && cut.rows.at(index).start == start
        && may_keep(cut.unit, cut.end, start, row_end(cut.rows, index))
}

// A piece that starts at the page, with the values of an old row, or zeros. Its number of pages is set
// when its end is known.
fn begin_piece(target: u32, start: u32, row: Option<Row>) -> Row
    ensures target { result.target ≡ target }
    ensures start { result.start ≡ start }
    ensures values { (to : ℕ) → with_end to result ≡ piece_of row target start to }
{
    match row {
        Some(row) => Row {
            target,
            start,
            ..row
        },
        None => Row {
            target,
            start,
            pages: 0,
            count: 0,
            last: 0,
            age: 0,
        },
    }
}

// Whether the boundary x may be kept, `last` being the one kept last.
fn may_keep(unit: u32, end: u32, last: u32, x: u32) -> bool
    ensures { result ≡ may_keep_at unit end last x }
{
    let [unit, end, last, x] = [unit, end, last, x].map(u64::from);
    last + unit <= x && x + unit <= end
}

// A boundary of old rows: its page, and the row that covers it.
#[derive(Clone, Copy)]
struct Boundary {
    page: u32,
    row: Option<Row>,
}

// Cuts at the boundary where it may be kept: the current piece is appended, and the next one has the
// values of the row that covers its page.
fn cut_at(cut: &Cutting<'_>, boundary: Boundary, current: Row, made: &mut RowBuf) -> Row
    requires room { length made.old.rows < made.old.cap }
    ensures made { made.new ≡ record made.old {
      rows = made.old.rows
          ++ (if may_keep_at cut.now.unit cut.now.end current.start boundary.page
          then with_end boundary.page current ∷ [] else []);
    } }
    ensures target { result.target ≡ current.target }
    ensures within { current.start ≤ cut.now.end → result.start ≤ cut.now.end }
    ensures start { result.start
        ≡ (if may_keep_at cut.now.unit cut.now.end current.start boundary.page
        then boundary.page else current.start) }
    ensures values { (to : ℕ) → with_end to result
        ≡ (if may_keep_at cut.now.unit cut.now.end current.start boundary.page
        then piece_of boundary.row current.target boundary.page to else with_end to current) }
{
    if may_keep(cut.unit, cut.end, current.start, boundary.page) {
        made.push(Row {
            pages: boundary.page - current.start,
            ..current
        });
        begin_piece(current.target, boundary.page, boundary.row)
    } else {
        current
    }
}

// Cuts at the start of the row with this index, where it may be kept.
fn cut_at_start(cut: &Cutting<'_>, index: usize, current: Row, made: &mut RowBuf) -> Row
    requires here { index < length cut.now.rows.now.rows }
    requires order { RowsInOrder 0 cut.now.rows.now.rows }
    requires open { IsOpenPiece cut.now.rows.now.rows current }
    requires room { length made.old.rows < made.old.cap }
    ensures open { IsOpenPiece cut.now.rows.now.rows result }
    ensures target { result.target ≡ current.target }
    ensures within { current.start ≤ cut.now.end → result.start ≤ cut.now.end }
    ensures cap { made.new.cap ≡ made.old.cap }
    ensures made { (xs : List ℕ)
        → made.new.rows
        ++ pieces_from cut.now.rows.now.rows current.target cut.now.unit cut.now.end result.start xs
        ≡ made.old.rows
        ++ pieces_from cut.now.rows.now.rows current.target cut.now.unit cut.now.end current.start
        ((row_at cut.now.rows.now.rows index).start ∷ xs) }
{
    let row = cut.rows.at(index);
    let boundary = Boundary {
        page: row.start,
        row: Some(row),
    };
    cut_at(cut, boundary, current, made)
}

// Cuts at the end of the row with this index, where it may be kept. The next row covers that page where
// it starts there.
fn cut_at_end(cut: &Cutting<'_>, index: usize, current: Row, made: &mut RowBuf) -> Row
    requires here { index < length cut.now.rows.now.rows }
    requires order { RowsInOrder 0 cut.now.rows.now.rows }
    requires open { IsOpenPiece cut.now.rows.now.rows current }
    requires room { length made.old.rows < made.old.cap }
    ensures open { IsOpenPiece cut.now.rows.now.rows result }
    ensures target { result.target ≡ current.target }
    ensures within { current.start ≤ cut.now.end → result.start ≤ cut.now.end }
    ensures cap { made.new.cap ≡ made.old.cap }
    ensures made { (xs : List ℕ)
        → made.new.rows
        ++ pieces_from cut.now.rows.now.rows current.target cut.now.unit cut.now.end result.start xs
        ≡ made.old.rows
        ++ pieces_from cut.now.rows.now.rows current.target cut.now.unit cut.now.end current.start
        (row_end_of (row_at cut.now.rows.now.rows index) ∷ xs) }
{
    // For its clauses alone: the number of rows is a u32.
    let _count = cut.rows.len();
    let page = row_end(cut.rows, index);
    let row = covering_row(cut.rows, index + 1, page);
    cut_at(cut, Boundary { page, row }, current, made)
}

// Cuts at the start and at the end of the row with this index, where they may be kept.
fn cut_at_row(cut: &Cutting<'_>, index: usize, current: Row, made: &mut RowBuf) -> Row
    requires here { index < length cut.now.rows.now.rows }
    requires order { RowsInOrder 0 cut.now.rows.now.rows }
    requires open { IsOpenPiece cut.now.rows.now.rows current }
    requires room { length made.old.rows
        + length (pieces_from cut.now.rows.now.rows current.target cut.now.unit cut.now.end current.start
        (boundaries (drop index cut.now.rows.now.rows))) ≤ made.old.cap }
    ensures open { IsOpenPiece cut.now.rows.now.rows result }
    ensures target { result.target ≡ current.target }
    ensures within { current.start ≤ cut.now.end → result.start ≤ cut.now.end }
    ensures cap { made.new.cap ≡ made.old.cap }
    ensures made { made.new.rows
        ++ pieces_from cut.now.rows.now.rows current.target cut.now.unit cut.now.end result.start
        (boundaries (drop (index + 1) cut.now.rows.now.rows))
        ≡ made.old.rows
        ++ pieces_from cut.now.rows.now.rows current.target cut.now.unit cut.now.end current.start
        (boundaries (drop index cut.now.rows.now.rows)) }
{
    let current = cut_at_start(cut, index, current, made);
    cut_at_end(cut, index, current, made)
}

// Appends the last pieces. The row with this index, if any, ends after the range, so only its start may
// still be kept.
fn push_last(cut: &Cutting<'_>, index: usize, current: Row, made: &mut RowBuf)
    requires order { RowsInOrder 0 cut.now.rows.now.rows }
    requires unit { 1 ≤ cut.now.unit }
    requires open { IsOpenPiece cut.now.rows.now.rows current }
    requires next { index < length cut.now.rows.now.rows
        → cut.now.end < row_end_of (row_at cut.now.rows.now.rows index) }
    requires start { current.start ≤ cut.now.end }
    requires room { length made.old.rows
        + length (pieces_from cut.now.rows.now.rows current.target cut.now.unit cut.now.end current.start
        (boundaries (drop index cut.now.rows.now.rows))) ≤ made.old.cap }
    ensures { made.new ≡ record made.old {
      rows = made.old.rows
          ++ pieces_from cut.now.rows.now.rows current.target cut.now.unit cut.now.end current.start
          (boundaries (drop index cut.now.rows.now.rows));
    } }
{
    if index < cut.rows.count() {
        let last = cut_at_start(cut, index, current, made);
        push_piece(last, cut.end, made);
    } else {
        push_piece(current, cut.end, made);
    }
}

// Appends the current piece, which ends before this page.
fn push_piece(current: Row, end: u32, made: &mut RowBuf)
    requires start { current.start ≤ end }
    requires room { length made.old.rows < made.old.cap }
    ensures { made.new ≡ record made.old { rows = made.old.rows ++ with_end end current ∷ [] } }
{
    made.push(Row {
        pages: end - current.start,
        ..current
    });
}
