//! Laws of keys. Each function's contract is a theorem over the definitions alone.
ghost use Rattle.board_model.specs.LawsOfKeys.{EqualKeysAreAnEquivalence, KeysAreToldAsAdded, LookupsTakeNone, LookupsTakeTheFirst};

/// A key is told as it was added.
pub fn keys_are_told_as_added()
    ensures { KeysAreToldAsAdded }
{}

/// Equality of keys is an equivalence.
pub fn equal_keys_are_an_equivalence()
    ensures { EqualKeysAreAnEquivalence }
{}

/// A lookup takes the first entry, in the order of adding, whose key is equal.
pub fn lookups_take_the_first()
    ensures { LookupsTakeTheFirst }
{}

/// A lookup takes none exactly where no entry's key is equal.
pub fn lookups_take_none()
    ensures { LookupsTakeNone }
{}
