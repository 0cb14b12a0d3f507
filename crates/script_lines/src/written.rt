// Appending fields, and the words of a scheme.
ghost use Rattle.std.specs.Prelude.{◌≡◌, ◌+◌, [], ◌∷◌, ◌++◌, map, codes, OnOk};
ghost use Rattle.std.specs.Fmt.{decimal};
ghost use Rattle.line_text.specs.Address.{spelled_address};
ghost use Rattle.line_text.specs.Appended.{KeepsFront};
ghost use Rattle.script_lines.specs.KeysText.{keys_text};
ghost use Rattle.script_lines.specs.Separators.{colon};
ghost use Rattle.script_lines.specs.Spelling.{kind_name, kind_value, listed, spelled_answer, spelled_filter, spelled_scheme, spelled_setting, spelled_side, spelled_span};
ghost use Rattle.script_lines.specs.WrittenLine.{are_even, change_text, is_any, marks_given, pattern_given, prefer_given, quota_given, settings_given, time_given, unless};
ghost use Rattle.script_lines.specs.declared.keys.Setting.TheVariants.{Filter as filter_setting};

use crate::keys::Setting;
use damon_types::{
    Filter, FilterKind, Marks, Pattern, Prefer, Quota, Scheme, SlotChange, Span, Weights,
};
use line_text::{address_before, append_field, end_line};
use std::alloc::AllocError;

// Appends a text and a word.
#[tactic(auto, using(line_text::proofs::Lemmas::appends))]
fn write_word(out: &mut Vec<u8>, name: &[u8], word: &[u8]) -> Result<(), AllocError>
    ensures ok { OnOk result (out.new.items ≡ out.old.items ++ (name.now ++ word.now)) }
    ensures kept { KeepsFront out.old.items out.new.items }
{
    out.extend_from_slice(name)?;
    out.extend_from_slice(word)
}

// Appends a text and an address.
#[tactic(auto, using(line_text::proofs::Lemmas::appends))]
pub fn write_address(out: &mut Vec<u8>, name: &[u8], value: u64) -> Result<(), AllocError>
    ensures ok { OnOk result (out.new.items ≡ out.old.items ++ (name.now ++ spelled_address value)) }
    ensures kept { KeepsFront out.old.items out.new.items }
{
    out.extend_from_slice(name)?;
    let mut digits = [0; 18];
    let start = address_before(&mut digits, 18, value);
    out.extend_from_slice(&digits[start..])
}

// Appends `scheme SLOT ACTION KEYS`, or `drop SLOT`.
#[tactic(auto, using(line_text::proofs::Lemmas::appends))]
pub fn write_change(out: &mut Vec<u8>, change: &SlotChange) -> Result<(), AllocError>
    ensures ok { OnOk result (out.new.items ≡ out.old.items ++ change_text change.now) }
    ensures kept { KeepsFront out.old.items out.new.items }
{
    match &change.scheme {
        Some(scheme) => write_scheme(out, change.slot, scheme),
        None => append_field(out, b"drop ", u64::from(change.slot)),
    }
}

// Appends `scheme SLOT ACTION KEYS`.
#[tactic(auto, using(line_text::proofs::Lemmas::appends))]
fn write_scheme(out: &mut Vec<u8>, slot: u8, scheme: &Scheme) -> Result<(), AllocError>
    ensures ok { OnOk result (out.new.items
        ≡ out.old.items ++ spelled_scheme slot scheme.now.action (settings_given scheme.now)) }
    ensures kept { KeepsFront out.old.items out.new.items }
{
    append_field(out, b"scheme ", u64::from(slot))?;
    write_word(out, b" ", scheme.action.name().as_bytes())?;
    write_keys(out, scheme)
}

// Appends the keys of a scheme, but for those whose value is the default.
fn write_keys(out: &mut Vec<u8>, scheme: &Scheme) -> Result<(), AllocError>
    ensures ok { OnOk result (out.new.items
        ≡ out.old.items ++ keys_text (settings_given scheme.now)) }
    ensures kept { KeepsFront out.old.items out.new.items }
{
    write_pattern(out, &scheme.pattern)?;
    write_quota(out, scheme.quota)?;
    write_unless(
        out,
        are_even(scheme.weights),
        Setting::Weights(scheme.weights),
    )?;
    write_prefer(out, scheme.prefer)?;
    write_marks(out, scheme.marks)?;
    write_filters(out, scheme.filters.as_slice())
}

// Appends the keys of a pattern.
#[tactic(auto, using(line_text::proofs::Lemmas::appends))]
fn write_pattern(out: &mut Vec<u8>, pattern: &Pattern) -> Result<(), AllocError>
    ensures ok { OnOk result (out.new.items
        ≡ out.old.items ++ keys_text (pattern_given pattern.now)) }
    ensures kept { KeepsFront out.old.items out.new.items }
{
    let Pattern { size, count, age } = *pattern;
    write_unless(out, is_any(size), Setting::Size(size))?;
    write_unless(out, is_any(count), Setting::Count(count))?;
    write_unless(out, is_any(age), Setting::Age(age))
}

// Whether the weights are the default.
fn are_even(weights: Weights) -> bool
    ensures { result ≡ are_even weights }
{
    weights.size == 1 && weights.count == 1 && weights.age == 1
}

// Whether a span holds each number.
fn is_any(span: Span) -> bool
    ensures { result ≡ is_any span }
{
    span.low == 0 && span.high == u32::MAX
}

// Appends the keys of a quota, if there is one, and of its time.
fn write_quota(out: &mut Vec<u8>, quota: Option<Quota>) -> Result<(), AllocError>
    ensures ok { OnOk result (out.new.items ≡ out.old.items ++ keys_text (quota_given quota)) }
    ensures kept { KeepsFront out.old.items out.new.items }
{
    match quota {
        Some(Quota { bytes, reset, time }) => {
            let bare = Quota {
                bytes,
                reset,
                time: None,
            };
            write_unless(out, false, Setting::Quota(bare))?;
            write_time(out, time)
        }
        None => Ok(()),
    }
}

// Appends the key of a time, if there is one.
#[tactic(auto, using(line_text::proofs::Lemmas::appends))]
fn write_time(out: &mut Vec<u8>, time: Option<u64>) -> Result<(), AllocError>
    ensures ok { OnOk result (out.new.items ≡ out.old.items ++ keys_text (time_given time)) }
    ensures kept { KeepsFront out.old.items out.new.items }
{
    match time {
        Some(time) => write_unless(out, false, Setting::Time(time)),
        None => Ok(()),
    }
}

// Appends the key of a preference other than `hot`.
#[tactic(auto, using(line_text::proofs::Lemmas::appends))]
fn write_prefer(out: &mut Vec<u8>, prefer: Prefer) -> Result<(), AllocError>
    ensures ok { OnOk result (out.new.items ≡ out.old.items ++ keys_text (prefer_given prefer)) }
    ensures kept { KeepsFront out.old.items out.new.items }
{
    match prefer {
        Prefer::Hot => Ok(()),
        Prefer::Cold => write_unless(out, false, Setting::Prefer(Prefer::Cold)),
    }
}

// Appends the key of watermarks, if there are some.
#[tactic(auto, using(line_text::proofs::Lemmas::appends))]
fn write_marks(out: &mut Vec<u8>, marks: Option<Marks>) -> Result<(), AllocError>
    ensures ok { OnOk result (out.new.items ≡ out.old.items ++ keys_text (marks_given marks)) }
    ensures kept { KeepsFront out.old.items out.new.items }
{
    match marks {
        Some(marks) => write_unless(out, false, Setting::Marks(marks)),
        None => Ok(()),
    }
}

// Appends the keys of filters.
fn write_filters(out: &mut Vec<u8>, filters: &[Filter]) -> Result<(), AllocError>
    ensures ok { OnOk result (out.new.items
        ≡ out.old.items ++ keys_text (map (λ f. filter_setting f) filters.now)) }
    ensures kept { KeepsFront out.old.items out.new.items }
{
    for filter in filters {
        write_unless(out, false, Setting::Filter(*filter))?;
    }
    Ok(())
}

// Appends a space and a setting, unless its value is the default of its key.
#[tactic(auto, using(line_text::proofs::Lemmas::appends))]
fn write_unless(out: &mut Vec<u8>, is_default: bool, setting: Setting) -> Result<(), AllocError>
    ensures ok { OnOk result (out.new.items
        ≡ out.old.items ++ keys_text (unless is_default setting)) }
    ensures kept { KeepsFront out.old.items out.new.items }
{
    if is_default {
        return Ok(());
    }
    out.extend_from_slice(b" ")?;
    write_setting(out, setting)
}

// Appends `KEY=VALUE`.
#[tactic(auto, using(line_text::proofs::Lemmas::appends))]
fn write_setting(out: &mut Vec<u8>, setting: Setting) -> Result<(), AllocError>
    ensures ok { OnOk result (out.new.items ≡ out.old.items ++ spelled_setting setting) }
    ensures kept { KeepsFront out.old.items out.new.items }
{
    match setting {
        Setting::Size(span) => write_span(out, b"size=", span),
        Setting::Count(span) => write_span(out, b"count=", span),
        Setting::Age(span) => write_span(out, b"age=", span),
        Setting::Quota(Quota { bytes, reset, .. }) => {
            append_field(out, b"quota=", bytes)?;
            append_field(out, b",", u64::from(reset))
        }
        Setting::Time(time) => append_field(out, b"time=", time),
        Setting::Weights(Weights { size, count, age }) => {
            write_three(
                out,
                b"weights=",
                u32::from(size),
                u32::from(count),
                u32::from(age),
            )
        }
        Setting::Prefer(Prefer::Hot) => out.extend_from_slice(b"prefer=hot"),
        Setting::Prefer(Prefer::Cold) => out.extend_from_slice(b"prefer=cold"),
        Setting::Marks(Marks { high, mid, low }) => write_three(out, b"marks=", high, mid, low),
        Setting::Filter(filter) => write_filter(out, filter),
    }
}

// Appends a key and `LOW,HIGH`.
#[tactic(auto, using(line_text::proofs::Lemmas::appends))]
fn write_span(out: &mut Vec<u8>, key: &[u8], span: Span) -> Result<(), AllocError>
    ensures ok { OnOk result (out.new.items ≡ out.old.items ++ (key.now ++ spelled_span span)) }
    ensures kept { KeepsFront out.old.items out.new.items }
{
    append_field(out, key, u64::from(span.low))?;
    append_field(out, b",", u64::from(span.high))
}

// Appends a key and three numbers.
#[tactic(auto, using(line_text::proofs::Lemmas::appends))]
fn write_three(
    out: &mut Vec<u8>,
    key: &[u8],
    first: u32,
    second: u32,
    third: u32,
) -> Result<(), AllocError>
    ensures ok { OnOk result (out.new.items ≡ out.old.items
        ++ (key.now ++ listed (decimal first ∷ decimal second ∷ decimal third ∷ []))) }
    ensures kept { KeepsFront out.old.items out.new.items }
{
    append_field(out, key, u64::from(first))?;
    append_field(out, b",", u64::from(second))?;
    append_field(out, b",", u64::from(third))
}

// Appends `filter=ANSWER:[not-]KIND:VALUE`.
#[tactic(auto, using(line_text::proofs::Lemmas::appends))]
fn write_filter(out: &mut Vec<u8>, filter: Filter) -> Result<(), AllocError>
    ensures ok { OnOk result (out.new.items
        ≡ out.old.items ++ (codes "filter=" ++ spelled_filter filter)) }
    ensures kept { KeepsFront out.old.items out.new.items }
{
    out.extend_from_slice(answer_front(filter.allow))?;
    out.extend_from_slice(side_name(filter.matching))?;
    write_kind(out, filter.kind)
}

// Appends `KIND:VALUE`.
#[tactic(auto, using(line_text::proofs::Lemmas::appends))]
fn write_kind(out: &mut Vec<u8>, kind: FilterKind) -> Result<(), AllocError>
    ensures ok { OnOk result (out.new.items
        ≡ out.old.items ++ (kind_name kind ++ colon ∷ kind_value kind)) }
    ensures kept { KeepsFront out.old.items out.new.items }
{
    match kind {
        FilterKind::Addr { from, to } => {
            write_address(out, b"addr:", from)?;
            write_address(out, b"-", to)
        }
        FilterKind::Target { target } => append_field(out, b"target:", u64::from(target)),
        FilterKind::Class { class } => append_field(out, b"class:", u64::from(class)),
    }
}

// `filter=ANSWER:`, where pages pass or do not.
fn answer_front(allow: bool) -> &'static [u8]
    ensures { result.now ≡ codes "filter=" ++ (spelled_answer allow ++ colon ∷ []) }
{
    if allow {
        b"filter=allow:"
    } else {
        b"filter=reject:"
    }
}

// `not-` for all other pages, or nothing.
fn side_name(matching: bool) -> &'static [u8]
    ensures { result.now ≡ spelled_side matching }
{
    if matching { b"" } else { b"not-" }
}
