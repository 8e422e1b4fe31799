//! What holds of readings, whatever reads them.

ghost use Rattle.grammar.specs.Laws.{OneReading, OneFront, NoneBegins};
ghost use Rattle.grammar.specs.Predictive.{OneDerivation};

/// A text has at most one reading: its log is a function of the text.
pub fn one_reading()
    ensures { OneReading }
{}

/// A text has one longest front, so the place of a fault is a function of the text.
pub fn one_front()
    ensures { OneFront }
{}

/// No sentence begins with the front and the token after it.
pub fn none_begins()
    ensures { NoneBegins }
{}

/// Where the next token, or the text's end, tells which alternative to take, all derivations of a text have one log: that
/// of its reading.
pub fn one_derivation()
    ensures { OneDerivation }
{}
