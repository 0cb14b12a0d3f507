ghost use Rattle.std.specs.Prelude.{◌≡◌, None, Some, option_map};
ghost use Rattle.damon_types.specs.declared.scheme.Quota.{Quota as quota_parts};
ghost use Rattle.script_lines.specs.Words.{words_in};
ghost use Rattle.script_lines.specs.Keys.{action_of, are_formed, comes_later, is_misformed, key_and_value, key_named, may_be_timed, may_follow, scheme_in, setting_for, setting_of, with_settings};
ghost use Rattle.script_lines.specs.KeyViews.{view_key};
ghost use Rattle.script_lines.specs.Settings.{default_scheme, key_place, with_setting};

use crate::ScriptKind;
use crate::values::{
    read_filter, read_marks, read_prefer, read_quota, read_span, read_time, read_weights,
};
use crate::words::{Words, read_8, same_word};
use damon_types::{
    Action, Filter, Filters, Marks, Pattern, Prefer, Quota, Scheme, Span, Version, Weights,
};
use line_text::{next_part, split_front};

// The keys of a scheme, in the order in which they stand.
#[derive(Clone, Copy, PartialEq, Eq)]
pub enum Key {
    Size,
    Count,
    Age,
    Quota,
    Time,
    Weights,
    Prefer,
    Marks,
    Filter,
}

// What a key sets.
#[derive(Clone, Copy)]
pub enum Setting {
    Size(Span),
    Count(Span),
    Age(Span),
    // Without its time, which has a key of its own.
    Quota(Quota),
    Time(u64),
    Weights(Weights),
    Prefer(Prefer),
    Marks(Marks),
    Filter(Filter),
}

// Reads `SLOT ACTION KEYS`. A fault of form anywhere in the line is reported before a bad number, so
// the keys are read twice.
pub fn read_scheme(version: Version, words: Words) -> Result<(u8, Scheme), ScriptKind>
    ensures { result ≡ scheme_in version (words_in words.entry) }
{
    let (slot, rest) = split_front(words.ok_or(ScriptKind::Form)?, b' ');
    let (name, keys) = split_front(rest.ok_or(ScriptKind::Form)?, b' ');
    let action = read_action(name).ok_or(ScriptKind::Form)?;
    if !are_formed(version, keys) {
        return Err(ScriptKind::Form);
    }
    let slot = read_8(slot)?;
    let scheme = read_settings(default_scheme(action), keys)?;
    Ok((slot, scheme))
}

// The variant that a name stands for, or None where it is not in the table.
macro_rules! variant_named {
    ($name:ident, $kind:ident, $($text:literal => $variant:ident,)*) => {{
        $(if same_word($name, $text) {
            return Some($kind::$variant);
        })*
        None
    }};
}

// The action with this name.
fn read_action(name: &[u8]) -> Option<Action>
    ensures { result ≡ action_of name.now }
{
    variant_named! {
        name, Action,
        b"stat" => Stat,
        b"willneed" => Willneed,
        b"cold" => Cold,
        b"pageout" => Pageout,
        b"hugepage" => Hugepage,
        b"nohugepage" => Nohugepage,
        b"lru_prio" => LruPrio,
        b"lru_deprio" => LruDeprio,
    }
}

// The key with this name.
fn read_key(name: &[u8]) -> Option<Key>
    ensures { result ≡ key_named name.now }
{
    variant_named! {
        name, Key,
        b"size" => Size,
        b"count" => Count,
        b"age" => Age,
        b"quota" => Quota,
        b"time" => Time,
        b"weights" => Weights,
        b"prefer" => Prefer,
        b"marks" => Marks,
        b"filter" => Filter,
    }
}

// Takes `KEY=VALUE` apart at its first equals sign.
fn split_key(word: &[u8]) -> Result<(Key, &[u8]), ScriptKind>
    ensures { view_key result ≡ key_and_value word.now }
{
    let (name, value) = next_part(word, b'=').ok_or(ScriptKind::Form)?;
    let key = read_key(name).ok_or(ScriptKind::Form)?;
    Ok((key, value))
}

// Whether words have the form of settings and stand in order.
fn are_formed(version: Version, keys: Words) -> bool
    ensures { result ≡ are_formed version None (words_in keys.entry) }
{
    let mut last = None;
    let mut rest = keys;
    'words: while let Some(text) = rest {
        let (word, more) = split_front(text, b' ');
        let Ok((key, value)) = split_key(word) else {
            return false;
        };
        if !may_follow(version, last, key) || is_misformed(key, value) {
            return false;
        }
        last = Some(key);
        rest = more;
    }
    true
}

// Whether a key may stand after the one before it, if any.
fn may_follow(version: Version, last: Option<Key>, key: Key) -> bool
    ensures { result ≡ may_follow version (option_map key_place last) key }
{
    (key != Key::Time || may_be_timed(version, last)) && comes_later(last, key)
}

// Whether a time may stand after this key: after the quota, and in version Two alone.
fn may_be_timed(version: Version, last: Option<Key>) -> bool
    ensures { result ≡ may_be_timed version (option_map key_place last) }
{
    match version {
        Version::One => false,
        Version::Two => last == Some(Key::Quota),
    }
}

// Whether a key comes later than the one before it: keys stand in order, and only the filter repeats.
fn comes_later(last: Option<Key>, key: Key) -> bool
    ensures { result ≡ comes_later (option_map key_place last) key }
{
    match last {
        None => true,
        Some(Key::Filter) => key == Key::Filter,
        Some(last) => place(last) < place(key),
    }
}

// The place of a key in the order of keys.
fn place(key: Key) -> u8
    ensures { result ≡ key_place key }
{
    match key {
        Key::Size => 0,
        Key::Count => 1,
        Key::Age => 2,
        Key::Quota => 3,
        Key::Time => 4,
        Key::Weights => 5,
        Key::Prefer => 6,
        Key::Marks => 7,
        Key::Filter => 8,
    }
}

// Whether a value does not have the form that its key wants.
fn is_misformed(key: Key, value: &[u8]) -> bool
    ensures { result ≡ is_misformed (setting_for key value.now) }
{
    matches!(read_value(key, value), Err(ScriptKind::Form))
}

// A scheme with the settings of words. Of several faults a bad number comes before a ninth filter, so
// a refused scheme is carried on to the last word.
fn read_settings(scheme: Scheme, keys: Words) -> Result<Scheme, ScriptKind>
    ensures { result ≡ with_settings scheme (words_in keys.entry) }
{
    let mut scheme = Ok(scheme);
    let mut rest = keys;
    'words: while let Some(text) = rest {
        let (word, more) = split_front(text, b' ');
        let setting = read_setting(word)?;
        scheme = scheme.and_then(|so_far| with_setting(so_far, setting));
        rest = more;
    }
    scheme
}

// What a word sets.
fn read_setting(word: &[u8]) -> Result<Setting, ScriptKind>
    ensures { result ≡ setting_of word.now }
{
    let (key, value) = split_key(word)?;
    read_value(key, value)
}

// What a value sets under a key.
fn read_value(key: Key, value: &[u8]) -> Result<Setting, ScriptKind>
    ensures { result ≡ setting_for key value.now }
{
    match key {
        Key::Size => Ok(Setting::Size(read_span(value)?)),
        Key::Count => Ok(Setting::Count(read_span(value)?)),
        Key::Age => Ok(Setting::Age(read_span(value)?)),
        Key::Quota => Ok(Setting::Quota(read_quota(value)?)),
        Key::Time => Ok(Setting::Time(read_time(value)?)),
        Key::Weights => Ok(Setting::Weights(read_weights(value)?)),
        Key::Prefer => Ok(Setting::Prefer(read_prefer(value)?)),
        Key::Marks => Ok(Setting::Marks(read_marks(value)?)),
        Key::Filter => Ok(Setting::Filter(read_filter(value)?)),
    }
}

// The scheme of an action with each key at its default.
fn default_scheme(action: Action) -> Scheme
    ensures { result ≡ default_scheme action }
{
    let any = Span {
        low: 0,
        high: u32::MAX,
    };
    Scheme {
        action,
        pattern: Pattern {
            size: any,
            count: any,
            age: any,
        },
        quota: None,
        weights: Weights {
            size: 1,
            count: 1,
            age: 1,
        },
        prefer: Prefer::Hot,
        marks: None,
        filters: Filters::new(),
    }
}

// A scheme with one more setting. A ninth filter is refused.
fn with_setting(mut scheme: Scheme, setting: Setting) -> Result<Scheme, ScriptKind>
    ensures { result ≡ with_setting scheme setting }
{
    match setting {
        Setting::Size(size) => scheme.pattern.size = size,
        Setting::Count(count) => scheme.pattern.count = count,
        Setting::Age(age) => scheme.pattern.age = age,
        Setting::Quota(quota) => scheme.quota = Some(quota),
        Setting::Time(time) => scheme.quota = with_time(scheme.quota, time),
        Setting::Weights(weights) => scheme.weights = weights,
        Setting::Prefer(prefer) => scheme.prefer = prefer,
        Setting::Marks(marks) => scheme.marks = Some(marks),
        Setting::Filter(filter) => {
            if scheme.filters.push(filter).is_err() {
                return Err(ScriptKind::Limit);
            }
        }
    }
    Ok(scheme)
}

// A quota, if there is one, with this time.
fn with_time(quota: Option<Quota>, time: u64) -> Option<Quota>
    ensures { result ≡ option_map (λ (q : quota_parts). record q { time = Some time }) quota }
{
    match quota {
        Some(Quota { bytes, reset, .. }) => Some(Quota {
            bytes,
            reset,
            time: Some(time),
        }),
        None => None,
    }
}
