//! Laws of the definitions by which the calls are said.
ghost use Rattle.recovery_units.specs.Laws.{FormsRefuseAlike};
ghost use Rattle.recovery_units.specs.Others.{UnitsStandApart};

/// What refuses an operation on records by its form alone, as `record_operations` tells it of a file's head, is what the world says of the file.
pub fn forms_refuse_alike()
    ensures { FormsRefuseAlike }
{}

/// Whatever is done for one branch, each other one keeps its unit, its entries in the journal, the bytes that it is owed there and the keys that it holds.
pub fn units_stand_apart()
    ensures { UnitsStandApart }
{}
