// Laws of the definitions that the contracts cite, for the proofs of callers. The functions have no
// bodies.
ghost use Rattle.line_text.specs.Laws.{ReadsDecimal, ReadsOnlyDecimal, ReadsOnlySpelledAddress, ReadsSpelledAddress};

/// The decimal spelling of a number of at most 64 bits is read as that number, under any limit that
/// it is within.
pub fn decimal_is_read()
    ensures read_back { ReadsDecimal }
{}

/// A word that is read as a number is its decimal spelling, so a number has one spelling.
pub fn number_is_decimal()
    ensures only { ReadsOnlyDecimal }
{}

/// The spelling of an address is read as that address.
pub fn spelled_address_is_read()
    ensures read_back { ReadsSpelledAddress }
{}

/// A word that is read as an address is its spelling, so an address has one spelling.
pub fn address_is_spelled()
    ensures only { ReadsOnlySpelledAddress }
{}
