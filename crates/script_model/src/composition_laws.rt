//! Events and reads together. The function's contract is a theorem over the definitions alone.
ghost use Rattle.script_model.specs.LawsOfComposition.{NotifiedGetsAreFresh};

/// Who takes an entry's id, and then gets the entry, gets what was published before the notify of that id began, or a later value.
pub fn notified_gets_are_fresh()
    ensures { NotifiedGetsAreFresh }
{}
