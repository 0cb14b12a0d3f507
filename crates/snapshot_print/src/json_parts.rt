// Members of the objects of a report in JSON, as they are sent to a serializer.
ghost use Rattle.std.specs.Prelude.{Option, OnOk};
ghost use Rattle.serde_json.specs.Data.{boolean, string};
ghost use Rattle.snapshot_print.specs.Json.{count_of, count_or_null};
ghost use Rattle.snapshot_print.specs.Sending.{SendsMember};

use serde::Serializer;

// Sends a member whose value is a number.
pub(crate) fn send_count<S: Serializer>(out: &mut S, name: &str, count: u64) -> Result<(), S::Error>
    ensures { OnOk result
        (SendsMember name.now (count_of count) (S.written out.old) (S.written out.new)) }
{
    out.key(name)?;
    out.u64(count)
}

// Sends a member whose value is a number or null.
pub(crate) fn send_option<S: Serializer>(
    out: &mut S,
    name: &str,
    count: Option<u64>,
) -> Result<(), S::Error>
    ensures { OnOk result
        (SendsMember name.now (count_or_null count) (S.written out.old) (S.written out.new)) }
{
    out.key(name)?;
    match count {
        Some(count) => out.u64(count),
        None => out.unit(),
    }
}

// Sends a member whose value is true or false.
pub(crate) fn send_bool<S: Serializer>(out: &mut S, name: &str, value: bool) -> Result<(), S::Error>
    ensures { OnOk result
        (SendsMember name.now (boolean value) (S.written out.old) (S.written out.new)) }
{
    out.key(name)?;
    out.bool(value)
}

// Sends a member whose value is a text.
pub(crate) fn send_text<S: Serializer>(out: &mut S, name: &str, value: &str) -> Result<(), S::Error>
    ensures { OnOk result
        (SendsMember name.now (string value.now) (S.written out.old) (S.written out.new)) }
{
    out.key(name)?;
    out.str(value)
}
