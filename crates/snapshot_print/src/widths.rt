// The most bytes that lines, items of lists in JSON and their parts have: names and signs, and then the
// numbers, addresses and words between them. They are written into buffers of these widths.

// A number in decimal.
const NUMBER: usize = 20;

// A number of 32 bits.
const SHORT_NUMBER: usize = 10;

// An address with its `0x`.
const ADDRESS: usize = 18;

// The name of an action.
const ACTION: usize = 10;

// ` START-END` of consecutive pages.
pub(crate) const PAGES_PART: usize = 2 * (1 + ADDRESS);

// `row TARGET START-END`.
pub(crate) const PLACE_PART: usize = 4 + NUMBER + PAGES_PART;

// ` count=.. last=.. age=..` and the line's end.
pub(crate) const COUNTS_PART: usize = 7 + 6 + 5 + 3 * NUMBER + 1;

// A line or an item of those that are appended in groups: none is longer than the line of a row.
pub(crate) const LINE: usize = PLACE_PART + COUNTS_PART;

// `aggregate tick=.. threshold=.. rows=..` and the line's end.
pub(crate) const FIRST_LINE: usize = 15 + 11 + 6 + 3 * NUMBER + 1;

// `apply SLOT ACTION ` with a space at its end.
pub(crate) const APPLY_PART: usize = 6 + NUMBER + 1 + ACTION + 1;

// `TARGET START-END score=..` and the line's end.
pub(crate) const RUN_PART: usize = NUMBER + PAGES_PART + 7 + NUMBER + 1;

// ` left=.. taken=.. lowest=..`.
pub(crate) const TAKEN_PART: usize = 6 + 7 + 8 + 3 * NUMBER;

// `slot SLOT`, what was chosen, and the line's end.
pub(crate) const SLOT_LINE: usize = 5 + NUMBER + TAKEN_PART + 1;

// `scheme SLOT ACTION active=..`, whose last word is `yes` or `no`.
pub(crate) const STATE_PART: usize = 7 + NUMBER + 1 + ACTION + 8 + 3;

// ` charged=.. start=.. tried=.. applied=.. exceeds=..` and the line's end.
pub(crate) const STATISTICS_PART: usize = 9 + 7 + 7 + 9 + 9 + 5 * NUMBER + 1;

// The line of a set slot.
pub(crate) const SCHEME_LINE: usize = STATE_PART + STATISTICS_PART;

// `,"start":"0x..","target":..}`.
pub(crate) const START_PART: usize = 10 + ADDRESS + 11 + SHORT_NUMBER + 1;

// `,{"age":..,"count":..,"end":"0x..","last":..` and the members at the end of a row.
pub(crate) const ROW_ITEM: usize = 8 + 9 + 8 + 9 + 3 * SHORT_NUMBER + ADDRESS + START_PART;

// `,{"action":"..","end":"`.
pub(crate) const PREFIX_PART: usize = 12 + ACTION + 9;

// `0x..","score":..,"slot":..` and the members at the end of a run.
pub(crate) const REST_PART: usize = ADDRESS + 10 + 8 + 2 * SHORT_NUMBER + START_PART;
