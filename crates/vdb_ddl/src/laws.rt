//! What holds of the definitions: each law is the contract of a function without a body.

ghost use Rattle.vdb_ddl.specs.Laws as law;

/// A text is the items of one list at most.
pub fn items_alone()
    ensures { law.ItemsAlone }
{}

/// A text has one first fault at most.
pub fn fault_alone()
    ensures { law.FaultAlone }
{}

/// A text that is items has no fault.
pub fn never_both()
    ensures { law.NeverBoth }
{}

/// Every item of the grammar builds one tree: no action lacks a part, and no part is left.
pub fn one_item_built()
    ensures { law.OneItemBuilt }
{}
