//! The order in which rows stand makes no difference.

ghost use Rattle.row_laws.specs.AnyOrder.{AnswersInAnyOrder, RelationsInAnyOrder, ViewsInAnyOrder, WorldsInAnyOrder};

/// Over tables and views whose rows are rearranged, a relation has the same rows, in some order.
pub fn relations_in_any_order()
    ensures { RelationsInAnyOrder }
{}

/// Over tables whose rows are rearranged, each view has the same rows, in some order.
pub fn views_in_any_order()
    ensures { ViewsInAnyOrder }
{}

/// In worlds whose tables have the same rows, a relation of a catalog has the same rows, in some order.
pub fn worlds_in_any_order()
    ensures { WorldsInAnyOrder }
{}

/// What may be answered to a query over some rows may be answered to it over the same rows in another order.
pub fn answers_in_any_order()
    ensures { AnswersInAnyOrder }
{}
