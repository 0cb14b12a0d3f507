// The values of the keys of a scheme.
ghost use Rattle.std.specs.Prelude.{◌≡◌};
ghost use Rattle.script_lines.specs.KeyViews.{view_name};
ghost use Rattle.script_lines.specs.Keys.{addr_of, answer_of, filter_of, kind_of, marks_of, plain_name, prefer_of, quota_of, span_in, time_of, weights_of};

use crate::ScriptKind;
use crate::words::{read_8, read_16, read_32, read_64, read_byte_address, same_word};
use damon_types::{Filter, FilterKind, Marks, Prefer, Quota, Span, Weights};
use line_text::{split_front, strip, three_parts, two_parts};

// Reads `LOW,HIGH`.
pub fn read_span(value: &[u8]) -> Result<Span, ScriptKind>
    ensures { result ≡ span_in value.now }
{
    let (low, high) = two_parts(value, b',').ok_or(ScriptKind::Form)?;
    Ok(Span {
        low: read_32(low)?,
        high: read_32(high)?,
    })
}

// Reads `BYTES,RESET`, of a quota without a time.
pub fn read_quota(value: &[u8]) -> Result<Quota, ScriptKind>
    ensures { result ≡ quota_of value.now }
{
    let (bytes, reset) = two_parts(value, b',').ok_or(ScriptKind::Form)?;
    Ok(Quota {
        bytes: read_64(bytes)?,
        reset: read_32(reset)?,
        time: None,
    })
}

// Reads `NANOSECONDS`.
#[tactic(auto, using(crate::proofs::WordLemmas::one_of_parts))]
pub fn read_time(value: &[u8]) -> Result<u64, ScriptKind>
    ensures { result ≡ time_of value.now }
{
    match split_front(value, b',') {
        (time, None) => read_64(time),
        _ => Err(ScriptKind::Form),
    }
}

// Reads `SIZE,COUNT,AGE`.
pub fn read_weights(value: &[u8]) -> Result<Weights, ScriptKind>
    ensures { result ≡ weights_of value.now }
{
    let (size, count, age) = three_parts(value, b',').ok_or(ScriptKind::Form)?;
    Ok(Weights {
        size: read_16(size)?,
        count: read_16(count)?,
        age: read_16(age)?,
    })
}

// Reads `hot` or `cold`.
pub fn read_prefer(value: &[u8]) -> Result<Prefer, ScriptKind>
    ensures { result ≡ prefer_of value.now }
{
    if same_word(value, b"hot") {
        Ok(Prefer::Hot)
    } else if same_word(value, b"cold") {
        Ok(Prefer::Cold)
    } else {
        Err(ScriptKind::Form)
    }
}

// Reads `HIGH,MID,LOW`.
pub fn read_marks(value: &[u8]) -> Result<Marks, ScriptKind>
    ensures { result ≡ marks_of value.now }
{
    let (high, mid, low) = three_parts(value, b',').ok_or(ScriptKind::Form)?;
    Ok(Marks {
        high: read_32(high)?,
        mid: read_32(mid)?,
        low: read_32(low)?,
    })
}

// Reads `ANSWER:KIND:VALUE`.
pub fn read_filter(value: &[u8]) -> Result<Filter, ScriptKind>
    ensures { result ≡ filter_of value.now }
{
    let (answer, name, value) = three_parts(value, b':').ok_or(ScriptKind::Form)?;
    let allow = read_answer(answer)?;
    let (matching, name) = plain_name(name);
    let kind = read_kind(name, value)?;
    Ok(Filter {
        allow,
        matching,
        kind,
    })
}

// Reads `allow` or `reject`: whether pages pass.
fn read_answer(name: &[u8]) -> Result<bool, ScriptKind>
    ensures { result ≡ answer_of name.now }
{
    if same_word(name, b"allow") {
        Ok(true)
    } else if same_word(name, b"reject") {
        Ok(false)
    } else {
        Err(ScriptKind::Form)
    }
}

// Whether a name has no `not-` before it, and the name without it.
fn plain_name(name: &[u8]) -> (bool, &[u8])
    ensures { view_name result ≡ plain_name name.now }
{
    match strip(name, b"not-") {
        Some(bare) => (false, bare),
        None => (true, name),
    }
}

// Reads the kind of pages with this name and value.
fn read_kind(name: &[u8], value: &[u8]) -> Result<FilterKind, ScriptKind>
    ensures { result ≡ kind_of name.now value.now }
{
    if same_word(name, b"addr") {
        read_addr(value)
    } else if same_word(name, b"target") {
        let target = read_32(value)?;
        Ok(FilterKind::Target { target })
    } else if same_word(name, b"class") {
        let class = read_8(value)?;
        Ok(FilterKind::Class { class })
    } else {
        Err(ScriptKind::Form)
    }
}

// Reads `FROM-TO`.
fn read_addr(value: &[u8]) -> Result<FilterKind, ScriptKind>
    ensures { result ≡ addr_of value.now }
{
    let (from, to) = two_parts(value, b'-').ok_or(ScriptKind::Form)?;
    Ok(FilterKind::Addr {
        from: read_byte_address(from)?,
        to: read_byte_address(to)?,
    })
}
