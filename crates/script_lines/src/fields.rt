ghost use Rattle.std.specs.Prelude.{◌≡◌};
ghost use Rattle.script_lines.specs.Words.{words_in};
ghost use Rattle.script_lines.specs.Fields.{attrs_in, cost_in, range_in};

use crate::ScriptKind;
use crate::words::{
    Words, four_words, read_8, read_32, read_64, read_byte_address, three_words, two_words,
};
use damon_types::{Attrs, CostPart, RangeSpec};

// Reads `MIN MAX AGGR`.
pub fn read_attrs(words: Words) -> Result<Attrs, ScriptKind>
    ensures { result ≡ attrs_in (words_in words.entry) }
{
    let (min, max, aggr) = three_words(words)?;
    Ok(Attrs {
        min: read_32(min)?,
        max: read_32(max)?,
        aggr: read_32(aggr)?,
    })
}

// Reads `SLOT NANOSECONDS`.
pub fn read_cost(words: Words) -> Result<CostPart, ScriptKind>
    ensures { result ≡ cost_in (words_in words.entry) }
{
    let (slot, nanos) = two_words(words)?;
    Ok(CostPart {
        slot: read_8(slot)?,
        nanos: read_64(nanos)?,
    })
}

// Reads `TARGET FROM TO CLASS`.
pub fn read_range(words: Words) -> Result<RangeSpec, ScriptKind>
    ensures { result ≡ range_in (words_in words.entry) }
{
    let (target, from, to, class) = four_words(words)?;
    Ok(RangeSpec {
        target: read_32(target)?,
        from: read_byte_address(from)?,
        to: read_byte_address(to)?,
        class: read_8(class)?,
    })
}
